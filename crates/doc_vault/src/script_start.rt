ghost use Rattle.std.specs.Prelude.{◌≡◌, ◌≤◌, ◌+◌, ◌^◌, ℕ, List, Some, IfOk};
ghost use Rattle.doc_vault.specs.Openings.{FindsKey, MissesKey, VaultOpening, opened_by, opened_first};
ghost use Rattle.vault_script.specs.VaultLineViews.{vault_line_view};
ghost use Rattle.script_run_texts.specs.Causes.{InputCause, KeepsSource};
ghost use Rattle.sse_script.specs.TextLines.{bytes_to_come, lines_left};

use crate::next_line::next_line;
use script_run_texts::{Input, InputStop};
use sse_outside::Source;
use std::alloc::Global;
use vault_script::VaultLine;
use word_keys::MasterKey;

/// What a line is before the key line was read.
#[derive(Clone, Copy)]
enum First {
    /// A line without fields.
    Empty,
    /// The key line.
    Key([u8; 32]),
    /// A command.
    Other,
}

/// Sorts a line.
fn first_of(line: VaultLine) -> First
    ensures { (number : ℕ) (rest : List (List ℕ)) (after : VaultOpening) → opened_by number (Some (vault_line_view line)) rest after ≡ opened_first result number rest after }
{
    match line {
        VaultLine::Empty => First::Empty,
        VaultLine::Key(key) => First::Key(key),
        VaultLine::Put { .. } => First::Other,
        VaultLine::Drop { .. } => First::Other,
        VaultLine::Get { .. } => First::Other,
    }
}

// Promise P223 (caller): A vault's script begins with its key line; if another line or none stands there, that line's number is told.
//   clauses: found, missing, few_left, later, source; assumes: observable devices; not: Over a source that isn't observable, which line it was.
/// Reads a script up to its key line, which is the first that isn't empty; lines are counted from 1.
///
/// Errors: `Line(number)` if the line of this number isn't in the grammar or is a command, or, one above the last line, if
/// there is no key line; `Source` if the source failed, and its count of faults rose; `Memory`.
pub fn key_line<S: Source>(
    alloc: Global,
    source: &mut S,
    input: &mut Input,
) -> Result<MasterKey, InputStop>
    requires few { input.old.number + bytes_to_come input.old.pending (S.handed_out source.old) ≤ 2 ^ 63 }
    ensures found { IfOk result (λ key. FindsKey (input.old.number + 1) (lines_left input.old.pending (S.remaining source.old)) key input.new.number (lines_left input.new.pending (S.remaining source.new))) }
    ensures missing { (number : ℕ) → result ≡ Err (InputStop.Line number) → MissesKey (input.old.number + 1) (lines_left input.old.pending (S.remaining source.old)) number }
    ensures few_left { IfOk result (λ key. input.new.number + bytes_to_come input.new.pending (S.handed_out source.new) ≤ 2 ^ 63) }
    ensures later { S.faults source.old ≤ S.faults source.new }
    ensures source { KeepsSource InputCause (S.faults source.old) (S.faults source.new) result }
{
    'lines: loop {
        let Some(line) = next_line(alloc, source, input)? else {
            return Err(InputStop::Line(input.number()));
        };
        match first_of(line) {
            First::Empty => {}
            First::Key(key) => return Ok(MasterKey::new(key)),
            First::Other => return Err(InputStop::Line(input.number())),
        }
    }
}
