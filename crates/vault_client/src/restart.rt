ghost use Rattle.std.specs.Prelude.{◌≡◌, ◌≤◌, ◌<◌, ◌+◌, ◌^◌, [], ℕ, List, true, IfErr, IfOk, IfSome};
ghost use Rattle.client_journal.specs.Openings.{IsOfRecords};
ghost use Rattle.keyed_fn.specs.KeyedFn.{keyed_fn};
ghost use Rattle.sse_journal.specs.JournalView.{records_of};
ghost use Rattle.sse_script.specs.TextLines.{bytes_to_come, lines_left};
ghost use Rattle.vault_client.specs.OnlyRead.{IsOnlyRead};
ghost use Rattle.client_journal.specs.DiskRuns.{kept_on};
ghost use Rattle.vault_client.specs.Restorings.{CountsRestoring, HasRestored, StopsRestoring};
ghost use Rattle.vault_shelf.specs.Readiness.{is_ready};

use crate::recover;
use doc_vault::{Tools, key_line};
use keyed_fn::Keyed;
use script_run_texts::Input;
use sse_journal::Journal;
use sse_outside::{Disk, Source};
use std::alloc::Global;
use vault_script::VaultStop;
use vault_shelf::Shelf;

/// What a run resumes from: its tools; the shelf that all commands but the last leave, with the record of the last, or no bytes if there
/// is none; and what of the source was read ahead of the lines after the key line.
#[derive(Drop)]
pub struct Restart<'a, K: Keyed> {
    pub(crate) tools: Tools<'a, K>,
    pub(crate) shelf: Shelf,
    pub(crate) last: Vec<u8>,
    pub(crate) input: Input,
}

// Promise P272 (caller): A resuming run begins with its key line and the commands that its journal's records are under that key; else it stops for the cause.
//   clauses: restored, ready, few, stopped, reads, counts; fields: HasRestored.finds, HasRestored.restored, IsRestored.commands, AreKept.opens; assumes: observable devices, earlier
//     calls; not: Over a disk that isn't observable: that the records are all of its file, and which error is right.
/// Reads a script up to its key line, and all records of a journal, as those of the vault's client of that key. The journal is that of
/// the disk, as `client_journal::reopen` gives it; the disk is only read.
///
/// It stops at the key line for the causes of `key_line`; at the records for those of `recover` (`Unopened`); and out of memory.
pub fn restore<'a, K: Keyed, D: Disk, S: Source>(
    alloc: Global,
    keyed: &'a K,
    journal: &Journal,
    disk: &mut D,
    source: &mut S,
) -> Result<Restart<'a, K>, VaultStop>
    requires holds { IfSome (D.content disk.old) (λ file. IsOfRecords journal.now (D.content disk.old) (D.images disk.old)) }
    requires some { 0 < records_of journal.now }
    ensures restored { IfOk result (λ restart. HasRestored (keyed_fn K.prf K.pad) (lines_left [] (S.remaining source.old)) (kept_on (D.content disk.old))
        restart.input.number (lines_left restart.input.pending (S.remaining source.new)) restart.tools.keys restart.shelf restart.last.items) }
    ensures ready { IfOk result (λ restart. is_ready restart.shelf restart.last.items ≡ true) }
    ensures few { IfOk result (λ restart. restart.input.number + bytes_to_come restart.input.pending (S.handed_out source.new) ≤ 2 ^ 63) }
    ensures stopped { IfErr result (λ stop. StopsRestoring (keyed_fn K.prf K.pad) (lines_left [] (S.remaining source.old)) (kept_on (D.content disk.old)) stop) }
    ensures reads { IsOnlyRead D.content D.images D.moment D.left_since disk.old disk.new }
    ensures counts { CountsRestoring (D.faults disk.old) (D.faults disk.new) (S.faults source.old) (S.faults source.new) result }
{
    let mut input = Input::new(alloc)?;
    let key = key_line(alloc, source, &mut input)?;
    let master = key.prepare(keyed);
    let rebuilt = recover(alloc, &master, journal, disk)?;
    let (shelf, last) = rebuilt.finish();
    let keys = master.vault();
    let tools = Tools { alloc, keyed, keys };
    Ok(Restart {
        tools,
        shelf,
        last,
        input,
    })
}
