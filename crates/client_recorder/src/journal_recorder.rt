ghost use Rattle.std.specs.Prelude.{◌≡◌, ℕ, ◌≤◌, ◌+◌, List, [], ◌∷◌, ◌++◌, Option, None, IfSome, OnErr, OnOk, IsErrOf, is_some, length, option_map};
ghost use Rattle.sse_journal.specs.AnyMoment.{LeavesOnly};
ghost use Rattle.sse_journal.specs.FileRecords.{records_counted, TakesRecords};
ghost use Rattle.sse_journal.specs.Files.{GivesWithOrWithout, IsPayload};
ghost use Rattle.sse_journal.specs.JournalView.{broken_by, IsJournalOf};
ghost use Rattle.sse_outside.specs.Causes.{Rose};

use crate::Recorder;
use sse_journal::{AppendFault, Journal};
use sse_outside::{DeviceFault, Disk};

/// A journal on its disk, and a record that it refused.
#[derive(Drop)]
pub struct JournalRecorder<D: Disk> {
    journal: Journal,
    disk: D,
    refused: Option<Vec<u8>>,
}

impl<D: Disk> JournalRecorder<D> {
    /// A recorder that goes on behind the records of a journal, as `Journal::start` gives it for this disk.
    pub fn new(journal: Journal, disk: D) -> JournalRecorder<D>
        requires unbroken { broken_by journal ≡ None }
        requires holds { IfSome (D.content disk) (λ bytes. (payloads : List (List ℕ)) × IsJournalOf payloads journal (D.content disk) (D.images disk)) }
        ensures whole { TakesRecords result.journal (D.content result.disk) (D.images result.disk) }
        ensures none { result.refused ≡ None }
        ensures journal { result.journal ≡ journal }
        ensures disk { result.disk ≡ disk }
    {
        JournalRecorder {
            journal,
            disk,
            refused: None,
        }
    }

    /// The disk, with the journal's file.
    pub fn into_disk(self) -> D
        ensures { result ≡ self.disk }
    {
        let JournalRecorder {
            journal: _,
            disk,
            refused: _,
        } = self;
        disk
    }
}

/// Adds a record to a journal that takes records.
fn add<D: Disk>(journal: &mut Journal, disk: &mut D, payload: &[u8]) -> Result<(), DeviceFault>
    requires payload { IsPayload payload.now }
    requires takes { TakesRecords journal.old (D.content disk.old) (D.images disk.old) }
    ensures takes { OnOk result (TakesRecords journal.new (D.content disk.new) (D.images disk.new)) }
    ensures added { OnOk result (records_counted journal.new (D.content disk.new) ≡ option_map (λ all. all ++ payload.now ∷ []) (records_counted journal.old (D.content disk.old))) }
    ensures refused { OnErr result (records_counted journal.new (D.content disk.new) ≡ records_counted journal.old (D.content disk.old)) }
    ensures meanwhile { IfSome (records_counted journal.old (D.content disk.old)) (λ payloads. LeavesOnly D.moment D.left_since disk.old disk.new (GivesWithOrWithout payloads payload.now)) }
    ensures later { D.faults disk.old ≤ D.faults disk.new }
    ensures failed { IsErrOf result DeviceFault.Failed → Rose (D.faults disk.old) (D.faults disk.new) }
    ensures steady { OnOk result (D.faults disk.new ≡ D.faults disk.old) }
    ensures no_memory { IsErrOf result DeviceFault.NoMemory → D.faults disk.new ≡ D.faults disk.old }
{
    if journal.reserve(payload.len() as u32).is_err() {
        return Err(DeviceFault::NoMemory);
    }
    match journal.append(disk, payload) {
        Ok(()) => Ok(()),
        Err(AppendFault::NoMemory) => Err(DeviceFault::NoMemory),
        Err(AppendFault::DiskFault) => Err(DeviceFault::Failed),
        Err(AppendFault::Broken) => Err(DeviceFault::Failed),
    }
}

impl<D: Disk> Recorder for JournalRecorder<D> {
    ghost use Rattle.std.specs.Option.{option_map_or};
    ghost use Rattle.std.proofs.Common.{ap};
    ghost use Rattle.sse_journal.proofs.FileRecords.{takes_at_rest};
    ghost use Rattle.sse_outside.specs.Kept.{Kept};

    ghost kept = { λ r. record { records = records_counted r.journal (D.content r.disk); refused = option_map_or (λ payload. payload.items ∷ []) r.refused [] } };

    ghost moment = { λ r. D.moment r.disk };

    ghost left_since = { λ r. D.left_since r.disk };

    ghost whole = { λ r. TakesRecords r.journal (D.content r.disk) (D.images r.disk) × (r.refused ≡ None) };

    ghost faults = { λ r. D.faults r.disk };

    ghost at_rest = { λ r whole. record {
      none = ap (λ refused. option_map_or (λ payload. payload.items ∷ []) refused []) whole.1;
      leaves = takes_at_rest r.journal (D.content r.disk) (D.images r.disk) (D.left_since r.disk (D.moment r.disk)) whole.0 (D.only_now r.disk);
    } };

    fn keep(&mut self, payload: Vec<u8>) -> Result<(), DeviceFault> {
        match add(&mut self.journal, &mut self.disk, &payload) {
            Ok(()) => Ok(()),
            Err(fault) => {
                self.refused = Some(payload);
                Err(fault)
            }
        }
    }
}
