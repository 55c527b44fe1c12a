ghost use Rattle.std.specs.Prelude.{◌≡◌, OnOk};
ghost use Rattle.client_core.specs.Payloads.{renewal_payload, setup_payload, update_payload};
ghost use Rattle.script_run_texts.specs.Causes.{KeepCause, KeepsRecorder};
ghost use Rattle.sse_client.specs.RecordKept.{HasKept};
ghost use Rattle.client_recorder.specs.KeepsOn.{KeepsOn};

use client_core::{Planned, PlannedRenewal, PlannedUpdate};
use client_recorder::Recorder;
use sse_outside::DeviceFault;
use std::alloc::Global;

/// Keeps the record of a planned setup.
pub(crate) fn keep_setup<R: Recorder>(
    alloc: Global,
    planned: &Planned,
    recorder: &mut R,
) -> Result<(), DeviceFault>
    requires whole { R.whole recorder.old }
    ensures kept { HasKept (setup_payload planned.now) (R.kept recorder.old) (R.kept recorder.new) result }
    ensures keeps_on { KeepsOn R.kept R.moment R.left_since recorder.old recorder.new }
    ensures whole_after { OnOk result (R.whole recorder.new) }
    ensures faults { KeepsRecorder KeepCause (R.faults recorder.old) (R.faults recorder.new) result }
{
    let mut payload = Vec::new(alloc);
    if planned.payload_into(&mut payload).is_err() {
        return Err(DeviceFault::NoMemory);
    }
    recorder.keep(payload)
}

/// Keeps the record of a planned update.
pub(crate) fn keep_update<R: Recorder>(
    alloc: Global,
    planned: &PlannedUpdate,
    recorder: &mut R,
) -> Result<(), DeviceFault>
    requires whole { R.whole recorder.old }
    ensures kept { HasKept (update_payload planned.now) (R.kept recorder.old) (R.kept recorder.new) result }
    ensures keeps_on { KeepsOn R.kept R.moment R.left_since recorder.old recorder.new }
    ensures whole_after { OnOk result (R.whole recorder.new) }
    ensures faults { KeepsRecorder KeepCause (R.faults recorder.old) (R.faults recorder.new) result }
{
    let mut payload = Vec::new(alloc);
    if planned.payload_into(&mut payload).is_err() {
        return Err(DeviceFault::NoMemory);
    }
    recorder.keep(payload)
}

/// Keeps the record of a planned renewal of the key.
pub(crate) fn keep_renewal<R: Recorder>(
    alloc: Global,
    planned: &PlannedRenewal,
    recorder: &mut R,
) -> Result<(), DeviceFault>
    requires whole { R.whole recorder.old }
    ensures kept { HasKept (renewal_payload planned.now) (R.kept recorder.old) (R.kept recorder.new) result }
    ensures keeps_on { KeepsOn R.kept R.moment R.left_since recorder.old recorder.new }
    ensures whole_after { OnOk result (R.whole recorder.new) }
    ensures faults { KeepsRecorder KeepCause (R.faults recorder.old) (R.faults recorder.new) result }
{
    let mut payload = Vec::new(alloc);
    if planned.payload_into(&mut payload).is_err() {
        return Err(DeviceFault::NoMemory);
    }
    recorder.keep(payload)
}
