ghost use Rattle.std.specs.Prelude.{◌≡◌, ◌+◌, ◌≤◌, length, IfSome, None};
ghost use Rattle.sse_journal.specs.Files.{IsPayload};
ghost use Rattle.sse_journal.specs.JournalView.{end_of, broken_by};
ghost use Rattle.vault_server.specs.VaultServerView.{IsWithin};
ghost use Rattle.vault_server.specs.VaultTurns.{Appends, Breaks, CountsAppend};

use sse_journal::{AppendFault, Journal};
use sse_outside::{DeviceFault, Disk};

/// Appends the body of an update as a record, unless the journal is broken: then it answers why, and touches nothing.
pub(crate) fn keep<D: Disk>(
    journal: &mut Journal,
    disk: &mut D,
    body: &[u8],
) -> Result<(), DeviceFault>
    requires payload { IsPayload body.now }
    requires within { IsWithin journal.old (D.content disk.old) }
    ensures appends { Appends D.content D.images D.moment D.left_since disk.old disk.new result journal.old journal.new body.now }
    ensures breaks { Breaks disk.old disk.new result journal.old journal.new }
    ensures count { CountsAppend result journal.old (D.faults disk.old) (D.faults disk.new) }
{
    match journal.broken() {
        Some(why) => Err(why),
        None => append_body(journal, disk, body),
    }
}

/// Appends a record to a journal that isn't broken.
fn append_body<D: Disk>(journal: &mut Journal, disk: &mut D, body: &[u8]) -> Result<(), DeviceFault>
    requires payload { IsPayload body.now }
    requires whole { broken_by journal.old ≡ None }
    requires within { IfSome (D.content disk.old) (λ bytes. end_of journal.old + 1 ≤ length bytes) }
    ensures appends { Appends D.content D.images D.moment D.left_since disk.old disk.new result journal.old journal.new body.now }
    ensures breaks { Breaks disk.old disk.new result journal.old journal.new }
    ensures count { CountsAppend result journal.old (D.faults disk.old) (D.faults disk.new) }
{
    if journal.reserve(body.len() as u32).is_err() {
        return Err(DeviceFault::NoMemory);
    }
    match journal.append(disk, body) {
        Ok(()) => Ok(()),
        Err(AppendFault::NoMemory) => Err(DeviceFault::NoMemory),
        Err(AppendFault::DiskFault) => Err(DeviceFault::Failed),
        // Not of a journal that isn't broken.
        Err(AppendFault::Broken) => Err(DeviceFault::Failed),
    }
}
