ghost use Rattle.std.specs.Prelude.{◌≡◌, ◌+◌, ◌<◌, ◌≤◌, ◌^◌, [], None, true};
ghost use Rattle.std.proofs.Props.{props};
ghost use Rattle.client_registry.specs.Acceptance.{parameter_refusal};
ghost use Rattle.client_registry.specs.Registered.{facts};
ghost use Rattle.client_registry.specs.Setup.{setup_with};
ghost use Rattle.client_rebuild.specs.Updates.{AreCounted, command_of, fits};

use crate::update::Update;
use client_registry::Registry;

/// An update that a record says and that isn't carried out yet: the registry of the epoch before it, the parameters of the epoch's
/// setup, how many update frames and how many records the history has before it, and the update, which is accepted after it.
#[derive(Drop)]
pub struct RecordedUpdate {
    pub registry: Registry,
    pub b: u16,
    pub big: u16,
    pub pad: u16,
    pub frames: u32,
    pub records: u32,
    pub update: Update,
    ghost sized: { parameter_refusal (setup_with [] b big pad) ≡ None },
    ghost accepted: { fits (facts registry) (command_of update) ≡ true },
    ghost counted: { AreCounted (facts registry) frames } by { Prim.hlevel props },
    ghost number: { frames + 1 < 2 ^ 32 },
    ghost fewer: { records ≤ frames },
}
