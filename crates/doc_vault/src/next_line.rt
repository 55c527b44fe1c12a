ghost use Rattle.std.specs.Prelude.{◌≡◌, ◌≤◌, ◌<◌, ◌+◌, ◌^◌, is_some, true, false, IfOk, OnOk};
ghost use Rattle.std.specs.Io.KnownBytes.{IsAtEnd};
ghost use Rattle.doc_vault.specs.NextLines.{ReadsNext};
ghost use Rattle.script_run_texts.specs.Causes.{InputCause, KeepsSource};
ghost use Rattle.sse_script.specs.TextLines.{bytes_to_come, lines_left};

use script_run_texts::{Input, InputStop};
use sse_outside::Source;
use std::alloc::Global;
use vault_script::{VaultLine, read_vault_line};

/// Reads the next line of a script; `None` at its end.
pub(crate) fn next_line<S: Source>(
    alloc: Global,
    source: &mut S,
    input: &mut Input,
) -> Result<Option<VaultLine>, InputStop>
    requires few { input.old.number + bytes_to_come input.old.pending (S.handed_out source.old) ≤ 2 ^ 63 }
    ensures reads { ReadsNext input.old.number (lines_left input.old.pending (S.remaining source.old)) (lines_left input.new.pending (S.remaining source.new)) result }
    ensures at_end { IfOk result (λ line. is_some line ≡ false → IsAtEnd (S.remaining source.new)) }
    ensures counted { OnOk result (input.new.number ≡ input.old.number + 1) }
    ensures less { IfOk result (λ line. is_some line ≡ true →
        bytes_to_come input.new.pending (S.handed_out source.new) < bytes_to_come input.old.pending (S.handed_out source.old)) }
    ensures later { S.faults source.old ≤ S.faults source.new }
    ensures source { KeepsSource InputCause (S.faults source.old) (S.faults source.new) result }
{
    if !input.advance(source)? {
        return Ok(None);
    }
    match read_vault_line(alloc, input.bytes(), input.number()) {
        Ok(line) => Ok(Some(line)),
        Err(stop) => Err(stop),
    }
}
