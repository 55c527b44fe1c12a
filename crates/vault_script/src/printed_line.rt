ghost use Rattle.std.specs.Prelude.{◌≡◌, [], ◌∷◌, ◌++◌, codes, decimal};
ghost use Rattle.std.specs.List.{concat};
ghost use Rattle.vault_script.specs.VaultPrints.{CountsFault, TakesText};
ghost use Rattle.vault_script.specs.VaultShown as says;
ghost use Rattle.vault_script.specs.VaultShown.{vault_shown_view};
ghost use Rattle.vault_script.specs.VaultTexts.{vault_text};

use crate::body_digits::{print_bytes, print_digits};
use crate::short_line::print_one;
use crate::{VaultRefusal, VaultShown};
use sse_outside::{DeviceFault, Sink};

// Promise P221 (caller): A printed line of a vault's run is its text; after an error, a strict prefix of it, and that error's count rose.
//   clauses: text, faults, shortages; assumes: observable devices
/// Prints one line, its end (byte 0a) included, in time in proportion to its length. It takes no memory: a short line is
/// made on the stack, and a text is printed in pieces of 1,024 bytes.
///
/// After an error the sink has taken a strict prefix of that line, and no other byte. With `DeviceFault::Failed` the
/// sink's count of faults rose, with `DeviceFault::NoMemory` its count of shortages; the other count is unchanged.
pub fn print_vault_line<W: Sink>(sink: &mut W, shown: &VaultShown<'_>) -> Result<(), DeviceFault>
    ensures text { TakesText result (W.written sink.old) (W.written sink.new) (vault_text (vault_shown_view shown.now)) }
    ensures faults { CountsFault DeviceFault.Failed result (W.faults sink.old) (W.faults sink.new) }
    ensures shortages { CountsFault DeviceFault.NoMemory result (W.shortages sink.old) (W.shortages sink.new) }
{
    match *shown {
        VaultShown::Stored { id } => print_one(sink, "stored ", id, "\n"),
        VaultShown::Dropped { id } => print_one(sink, "dropped ", id, "\n"),
        VaultShown::Fetched { id, body } => print_fetched(sink, id, body),
        VaultShown::Forged { id } => print_one(sink, "forged ", id, "\n"),
        VaultShown::NoBody { id } => print_one(sink, "no body ", id, "\n"),
        VaultShown::Refused(refusal) => print_refusal(sink, refusal),
        VaultShown::Resumed { frames } => {
            print_one(sink, "resumed ", u64::from(frames), " frames\n")
        }
    }
}

/// Prints the line of a text that was fetched.
fn print_fetched<W: Sink>(sink: &mut W, id: u64, body: &[u8]) -> Result<(), DeviceFault>
    ensures text { TakesText result (W.written sink.old) (W.written sink.new) (vault_text (says.Fetched id body.now)) }
    ensures faults { CountsFault DeviceFault.Failed result (W.faults sink.old) (W.faults sink.new) }
    ensures shortages { CountsFault DeviceFault.NoMemory result (W.shortages sink.old) (W.shortages sink.new) }
{
    print_one(sink, "body ", id, ": ")?;
    print_digits(sink, body)?;
    print_bytes(sink, b"\n")
}

/// Prints the line of a command that was refused.
fn print_refusal<W: Sink>(sink: &mut W, refusal: VaultRefusal) -> Result<(), DeviceFault>
    ensures text { TakesText result (W.written sink.old) (W.written sink.new) (vault_text (says.Refused refusal)) }
    ensures faults { CountsFault DeviceFault.Failed result (W.faults sink.old) (W.faults sink.new) }
    ensures shortages { CountsFault DeviceFault.NoMemory result (W.shortages sink.old) (W.shortages sink.new) }
{
    match refusal {
        VaultRefusal::Zero => print_bytes(sink, b"refused: identifier zero\n"),
        VaultRefusal::BodyThere { id } => print_one(sink, "refused: body ", id, " is there\n"),
        VaultRefusal::NoBody { id } => print_one(sink, "refused: no body ", id, "\n"),
        VaultRefusal::TooLong { n } => print_one(sink, "refused: body is too long: ", n, "\n"),
        VaultRefusal::VaultFull => print_bytes(sink, b"refused: vault is full\n"),
    }
}
