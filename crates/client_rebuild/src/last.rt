ghost use Rattle.std.specs.Prelude.{◌≡◌, ◌≤◌, [], None, is_some};
ghost use Rattle.client_registry.specs.Acceptance.{parameter_refusal};
ghost use Rattle.client_registry.specs.Facts.{facts_after};
ghost use Rattle.client_registry.specs.IdNumber.{id_number};
ghost use Rattle.client_registry.specs.Registered.{facts};
ghost use Rattle.client_registry.specs.Setup.{setup_with};
ghost use Rattle.client_rebuild.specs.Recalls.{accepts_after, facts_of_last, frames_of_last, pad_of_last, records_of_last, shape_of_last};
ghost use Rattle.client_rebuild.specs.Updates.{command_of, fits};

use crate::recorded_setup::RecordedSetup;
use crate::recorded_update::RecordedUpdate;
use crate::update::Update;
use client_registry::DocId;

/// The last record taken, whose command isn't carried out yet, and what stands before it.
#[derive(Drop)]
pub enum Last {
    /// The first record, of a setup, or that of a renewal.
    Setup(RecordedSetup),
    /// An update after one of these.
    Update(RecordedUpdate),
}

impl Last {
    /// How many update frames there are with it.
    pub fn frames(&self) -> u32
        ensures { result ≡ frames_of_last self.now }
    {
        match self {
            Last::Setup(setup) => setup.before + setup.frames,
            Last::Update(update) => update.frames + 1,
        }
    }

    /// How many records there are with it.
    pub(crate) fn records(&self) -> u32
        ensures records { result ≡ records_of_last self.now }
        ensures fewer { result ≤ frames_of_last self.now }
    {
        match self {
            Last::Setup(setup) => setup.records,
            Last::Update(update) => update.records + 1,
        }
    }

    /// b, B and Q of its epoch's setup, which are the same in all epochs.
    pub fn parameters(&self) -> (u16, u16, u16)
        ensures shape { shape_of_last self.now ≡ record { b = result.0; big = result.1 } }
        ensures pad { pad_of_last self.now ≡ result.2 }
        ensures accepted { parameter_refusal (setup_with [] result.0 result.1 result.2) ≡ None }
    {
        match self {
            Last::Setup(setup) => (setup.b, setup.big, setup.pad),
            Last::Update(update) => (update.b, update.big, update.pad),
        }
    }

    /// Whether a document of this identifier is live after it.
    fn is_live(&self, id: DocId) -> bool
        ensures { result ≡ is_some ((facts_of_last self.now).live (id_number id)) }
    {
        match self {
            Last::Setup(setup) => setup.docs.is_live(id),
            Last::Update(update) => is_live_after(update, id),
        }
    }

    /// Whether the update fits what is live after it.
    fn fits(&self, update: &Update) -> bool
        ensures { result ≡ fits (facts_of_last self.now) (command_of update.now) }
    {
        match update {
            Update::Add(doc) => !self.is_live(doc.id()),
            Update::Delete(id) => self.is_live(*id),
        }
    }

    /// Whether the update is accepted after it: it fits what is live, and there is a number for its frame.
    pub(crate) fn accepts(&self, update: &Update) -> bool
        ensures { result ≡ accepts_after self.now (command_of update.now) }
    {
        self.fits(update) && self.frames() < u32::MAX
    }
}

/// The same of an update that isn't carried out yet.
fn is_live_after(last: &RecordedUpdate, id: DocId) -> bool
    ensures { result ≡ is_some ((facts_after (facts last.now.registry) (command_of last.now.update)).live (id_number id)) }
{
    match &last.update {
        Update::Add(doc) => doc.id().get() == id.get() || last.registry.is_live(id),
        Update::Delete(gone) => gone.get() != id.get() && last.registry.is_live(id),
    }
}
