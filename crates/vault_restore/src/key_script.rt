ghost use Rattle.std.specs.Prelude.{◌≡◌, ◌≤◌, ◌<◌, ◌+◌, ◌^◌, ℕ, List, [], Some, true, false, IfOk, OnOk};
ghost use Rattle.script_run_texts.specs.Causes.{InputCause, KeepsSource};
ghost use Rattle.sse_script.specs.TextLines.{bytes_to_come, lines_left};
ghost use Rattle.vault_script.specs.VaultLineViews.{vault_line_view};
ghost use Rattle.vault_script.specs.VaultLines.{EmptyLine};
ghost use Rattle.vault_restore.specs.KeyScripts.{BadLineAt, KeyAlone, KeyScript, LeavesKeyScript, MakesKeyScript, SkipsEmpty, after_line};

use doc_vault::key_line;
use script_run_texts::{Input, InputStop};
use sse_outside::Source;
use std::alloc::Global;
use vault_script::{VaultLine, read_vault_line};
use word_keys::MasterKey;

/// Reads the script of a restore: its key line, and otherwise only empty lines.
///
/// Errors: `Line(number)` if another line stands there, or, one above the last line, if there is no key line; `Source` if the
/// source failed, and its count of faults rose; `Memory`.
pub(crate) fn script_key<S: Source>(alloc: Global, source: &mut S) -> Result<MasterKey, InputStop>
    ensures alone { IfOk result (λ key. MakesKeyScript (lines_left [] (S.remaining source.old)) (KeyAlone key)) }
    ensures bad { (number : ℕ) → result ≡ Err (InputStop.Line number) → MakesKeyScript (lines_left [] (S.remaining source.old)) (BadLineAt number) }
    ensures later { S.faults source.old ≤ S.faults source.new }
    ensures source { KeepsSource InputCause (S.faults source.old) (S.faults source.new) result }
{
    let mut input = Input::new(alloc)?;
    let key = key_line(alloc, source, &mut input)?;
    only_empty(alloc, source, &mut input)?;
    Ok(key)
}

/// Reads the lines after the key line, which have to be empty.
fn only_empty<S: Source>(alloc: Global, source: &mut S, input: &mut Input) -> Result<(), InputStop>
    requires few { input.old.number + bytes_to_come input.old.pending (S.handed_out source.old) ≤ 2 ^ 63 }
    ensures alone { (key : List ℕ) → OnOk result (LeavesKeyScript key (input.old.number + 1) (lines_left input.old.pending (S.remaining source.old)) (KeyAlone key)) }
    ensures bad { (key : List ℕ) (number : ℕ) → result ≡ Err (InputStop.Line number) → LeavesKeyScript key (input.old.number + 1) (lines_left input.old.pending (S.remaining source.old)) (BadLineAt number) }
    ensures later { S.faults source.old ≤ S.faults source.new }
    ensures source { KeepsSource InputCause (S.faults source.old) (S.faults source.new) result }
{
    'lines: loop {
        if !skip_empty(alloc, source, input)? {
            return Ok(());
        }
    }
}

/// Reads the next line, which has to be empty; false at the end of the script.
fn skip_empty<S: Source>(
    alloc: Global,
    source: &mut S,
    input: &mut Input,
) -> Result<bool, InputStop>
    requires few { input.old.number + bytes_to_come input.old.pending (S.handed_out source.old) ≤ 2 ^ 63 }
    ensures skips { SkipsEmpty (input.old.number + 1) (lines_left input.old.pending (S.remaining source.old)) (lines_left input.new.pending (S.remaining source.new)) result }
    ensures counted { OnOk result (input.new.number ≡ input.old.number + 1) }
    ensures less { IfOk result (λ more. more ≡ true → bytes_to_come input.new.pending (S.handed_out source.new) < bytes_to_come input.old.pending (S.handed_out source.old)) }
    ensures later { S.faults source.old ≤ S.faults source.new }
    ensures source { KeepsSource InputCause (S.faults source.old) (S.faults source.new) result }
{
    if !input.advance(source)? {
        return Ok(false);
    }
    let line = read_vault_line(alloc, input.bytes(), input.number())?;
    if is_empty(&line) {
        return Ok(true);
    }
    Err(InputStop::Line(input.number()))
}

/// Whether a line has no fields.
fn is_empty(line: &VaultLine) -> bool
    ensures yes { result ≡ true → vault_line_view line.now ≡ EmptyLine }
    ensures not { result ≡ false → (number : ℕ) (after : KeyScript) → after_line number (Some (vault_line_view line.now)) after ≡ BadLineAt number }
{
    match line {
        VaultLine::Empty => true,
        VaultLine::Key(_) => false,
        VaultLine::Put { .. } => false,
        VaultLine::Drop { .. } => false,
        VaultLine::Get { .. } => false,
    }
}
