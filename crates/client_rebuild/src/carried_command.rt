ghost use Rattle.std.specs.Prelude.{◌≡◌, ◌-◌, ◌^◌, None, IfOk, OnErr, OnOk, true};
ghost use Rattle.client_registry.specs.Command.{Add as adds};
ghost use Rattle.client_registry.specs.Facts.{facts_after};
ghost use Rattle.client_registry.specs.Registered.{facts};
ghost use Rattle.client_rebuild.specs.Updates.{AreCounted, command_of, fits};

use crate::recorded_update::RecordedUpdate;
use crate::update::Update;
use client_registry::{Doc, Registry};
use std::alloc::AllocError;

/// Carries out an update that fits what is live, where no counter is the last. Without memory nothing is changed of what is
/// live, listed and counted.
pub(crate) fn carry_out(registry: &mut Registry, update: &Update) -> Result<(), AllocError>
    requires accepted { fits (facts registry.old) (command_of update.now) ≡ true }
    requires counted { AreCounted (facts registry.old) (2 ^ 32 - 1) }
    ensures ok { OnOk result (facts registry.new ≡ facts_after (facts registry.old) (command_of update.now)) }
    ensures err { OnErr result (facts registry.new ≡ facts registry.old) }
    ensures keys { registry.new.keys ≡ registry.old.keys }
{
    match update {
        Update::Add(doc) => add(registry, doc),
        Update::Delete(id) => {
            registry.delete(*id).unwrap();
            Ok(())
        }
    }
}

/// Adds the document.
fn add(registry: &mut Registry, doc: &Doc) -> Result<(), AllocError>
    requires dead { (facts registry.old).live doc.now.id ≡ None }
    requires counted { AreCounted (facts registry.old) (2 ^ 32 - 1) }
    ensures ok { OnOk result (facts registry.new ≡ facts_after (facts registry.old) (adds doc.now)) }
    ensures err { OnErr result (facts registry.new ≡ facts registry.old) }
    ensures keys { registry.new.keys ≡ registry.old.keys }
{
    let numbers = registry.reserve_numbered(doc)?;
    registry.add_numbered(doc, numbers.as_slice());
    Ok(())
}

impl RecordedUpdate {
    /// The registry of the history with the update. Without memory it is gone, with the update.
    pub fn carried_out(self) -> Result<Registry, AllocError>
        ensures facts { IfOk result (λ registry. facts registry ≡ facts_after (facts self.registry) (command_of self.update)) }
        ensures keys { IfOk result (λ registry. registry.keys ≡ self.registry.keys) }
    {
        let RecordedUpdate {
            mut registry,
            update,
            ..
        } = self;
        carry_out(&mut registry, &update)?;
        Ok(registry)
    }
}
