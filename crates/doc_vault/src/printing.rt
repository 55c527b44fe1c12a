ghost use Rattle.std.specs.Prelude.{◌≡◌, ◌∷◌, []};
ghost use Rattle.vault_shelf.specs.declared.shelf_fault.ShelfFault.{ShelfFault};
ghost use Rattle.doc_vault.specs.CommandViews.{refusal_of, shown_of};
ghost use Rattle.doc_vault.specs.Counts.{Counts, KeepsCounts, with_sink};
ghost use Rattle.doc_vault.specs.LineRuns.{Prints};
ghost use Rattle.vault_script.specs.VaultShown as says;
ghost use Rattle.vault_script.specs.VaultShown.{vault_shown_view};
ghost use Rattle.vault_shelf.specs.CommandView.{command_view};
ghost use Rattle.vault_shelf.specs.OpenedView.{text_in};

use sse_outside::Sink;
use vault_script::{VaultRefusal, VaultShown, VaultStop, print_vault_line};
use vault_shelf::{ShelfFault, TextBuffer, VaultCommand};

// Promise P273, also here; clauses: prints, counts
/// Prints one line.
///
/// It stops if the sink failed, with a strict prefix of the line printed, or out of memory.
pub fn show<W: Sink>(sink: &mut W, shown: &VaultShown<'_>) -> Result<(), VaultStop>
    ensures prints { Prints (vault_shown_view shown.now ∷ []) (W.written sink.old) (W.written sink.new) result }
    ensures counts { (others : Counts) → KeepsCounts (with_sink (W.faults sink.old) (W.shortages sink.old) others) (with_sink (W.faults sink.new) (W.shortages sink.new) others) result }
{
    match print_vault_line(sink, shown) {
        Ok(()) => Ok(()),
        Err(fault) => Err(VaultStop::from(fault)),
    }
}

/// Prints why a command was refused.
pub(crate) fn show_refusal<W: Sink>(sink: &mut W, fault: ShelfFault) -> Result<(), VaultStop>
    ensures prints { Prints (says.Refused (refusal_of fault) ∷ []) (W.written sink.old) (W.written sink.new) result }
    ensures counts { (others : Counts) → KeepsCounts (with_sink (W.faults sink.old) (W.shortages sink.old) others) (with_sink (W.faults sink.new) (W.shortages sink.new) others) result }
{
    show(sink, &VaultShown::Refused(refusal(fault)))
}

/// The printed cause of a refusal.
fn refusal(fault: ShelfFault) -> VaultRefusal
    ensures { result ≡ refusal_of fault }
{
    match fault {
        ShelfFault::IdentifierZero => VaultRefusal::Zero,
        ShelfFault::IsThere(id) => VaultRefusal::BodyThere { id },
        ShelfFault::NotThere(id) => VaultRefusal::NoBody { id },
        ShelfFault::TooLong(n) => VaultRefusal::TooLong { n },
        ShelfFault::Full => VaultRefusal::VaultFull,
    }
}

/// Prints the line of a command that was carried out; that of a get has the text that was received.
pub(crate) fn show_command<W: Sink>(
    sink: &mut W,
    command: &VaultCommand<'_>,
    text: &TextBuffer,
) -> Result<(), VaultStop>
    ensures prints { Prints (shown_of (command_view command.now) (text_in text.now) ∷ []) (W.written sink.old) (W.written sink.new) result }
    ensures counts { (others : Counts) → KeepsCounts (with_sink (W.faults sink.old) (W.shortages sink.old) others) (with_sink (W.faults sink.new) (W.shortages sink.new) others) result }
{
    match *command {
        VaultCommand::Put { id, .. } => show(sink, &VaultShown::Stored { id }),
        VaultCommand::Drop { id } => show(sink, &VaultShown::Dropped { id }),
        VaultCommand::Get { id } => {
            let body = text.text();
            show(sink, &VaultShown::Fetched { id, body })
        }
    }
}
