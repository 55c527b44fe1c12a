ghost use Rattle.std.specs.Prelude.{◌≡◌, ◌+◌, ◌<◌, ◌≤◌, ◌^◌, None};
ghost use Rattle.client_registry.specs.Acceptance.{frames_needed, size_refusal};
ghost use Rattle.client_registry.specs.Setup.{setup_with};

use client_registry::Docs;

/// A setup that a record says, or that a renewal makes of the live documents, of accepted size: its documents, `b` numbers in a
/// cell, `big` in a block, filled up to multiples of `pad`, and how many update frames it takes, and how many come before it. With it
/// there are so many records.
#[derive(Drop)]
pub struct RecordedSetup {
    pub docs: Docs,
    pub b: u16,
    pub big: u16,
    pub pad: u16,
    pub frames: u32,
    pub before: u32,
    pub records: u32,
    ghost accepted: { size_refusal (setup_with docs.documents b big pad) ≡ None },
    ghost needed: { frames ≡ frames_needed (setup_with docs.documents b big pad) },
    ghost number: { before + frames < 2 ^ 32 },
    ghost fewer: { records ≤ before + 1 },
}
