ghost use Rattle.std.specs.Prelude.{◌≡◌, ◌+◌, ◌<◌, ◌≤◌, ◌^◌, None, IfErr, IfOk};
ghost use Rattle.std.specs.Int.{div_ceil};
ghost use Rattle.client_registry.specs.Acceptance.{frames_needed, size_refusal};
ghost use Rattle.client_registry.specs.Documents.{IsCollected};
ghost use Rattle.client_registry.specs.Setup.{setup_with};

use crate::fault::RebuildFault;
use crate::recorded_setup::RecordedSetup;
use client_registry::{Docs, Size, Sizes, size_of};

/// The setup of these documents after so many update frames and records, where its size is accepted and its frames can be
/// numbered.
pub(crate) fn accepted_setup(
    docs: Docs,
    b: u16,
    big: u16,
    pad: u16,
    before: u32,
    records: u32,
) -> Result<RecordedSetup, RebuildFault>
    requires { records ≤ before }
    ensures collected { IsCollected docs.documents }
    ensures docs { IfOk result (λ setup. setup.docs ≡ docs) }
    ensures sizes { IfOk result (λ setup. (setup.b ≡ b) × (setup.big ≡ big) × (setup.pad ≡ pad)) }
    ensures counts { IfOk result (λ setup. (setup.before ≡ before) × (setup.records ≡ records + 1)) }
    ensures refused { IfErr result (λ fault. (fault ≡ RebuildFault.BadRecord records) ×
        (size_refusal (setup_with docs.documents b big pad) ≡ None → before + frames_needed (setup_with docs.documents b big pad) < 2 ^ 32 → ⊥)) }
{
    // Its contract says that the documents are collected.
    docs.len();
    let sizes = Sizes {
        b: b as u64,
        big: big as u64,
        pad: pad as u64,
    };
    let Ok(size) = size_of(&docs, sizes) else {
        return Err(RebuildFault::BadRecord(u64::from(records)));
    };
    let frames = frames_for(size);
    if before.checked_add(frames).is_none() {
        return Err(RebuildFault::BadRecord(u64::from(records)));
    }
    Ok(RecordedSetup {
        docs,
        b,
        big,
        pad,
        frames,
        before,
        records: records + 1,
    })
}

/// How many update frames a setup of this size takes.
fn frames_for(size: Size) -> u32
    ensures { result ≡ 2 + div_ceil size.padded_words 1024 + div_ceil size.padded_blocks 256 }
{
    2 + size.padded_words.div_ceil(1024) + size.padded_blocks.div_ceil(256)
}
