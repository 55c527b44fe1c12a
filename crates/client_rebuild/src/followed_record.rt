ghost use Rattle.std.specs.Prelude.{◌≡◌, true};
ghost use Rattle.client_rebuild.specs.Recalls.{Follows, IsFollowed, accepts_after};
ghost use Rattle.client_rebuild.specs.Updates.{command_of};

use crate::carried_command::carry_out;
use crate::last::Last;
use crate::recorded_setup::RecordedSetup;
use crate::recorded_update::RecordedUpdate;
use crate::update::Update;
use client_registry::Registry;

/// The update recorded behind the last record, whose command is carried out. Without memory the last record is handed back,
/// and it stands for the same history.
pub(crate) fn follow(last: Last, update: Update) -> Result<Last, Last>
    requires { accepts_after last (command_of update) ≡ true }
    ensures { Follows last (command_of update) result }
{
    match last {
        Last::Setup(setup) => Ok(follow_setup(setup, update)),
        Last::Update(before) => follow_update(before, update),
    }
}

/// The same behind a setup.
fn follow_setup(setup: RecordedSetup, update: Update) -> Last
    requires { accepts_after (Last.Setup setup) (command_of update) ≡ true }
    ensures { IsFollowed (Last.Setup setup) (command_of update) result }
{
    let RecordedSetup {
        docs,
        b,
        big,
        pad,
        frames,
        before,
        records,
    } = setup;
    Last::Update(RecordedUpdate {
        registry: Registry::from_docs(docs),
        b,
        big,
        pad,
        frames: before + frames,
        records,
        update,
    })
}

/// The same behind another update.
fn follow_update(before: RecordedUpdate, update: Update) -> Result<Last, Last>
    requires { accepts_after (Last.Update before) (command_of update) ≡ true }
    ensures { Follows (Last.Update before) (command_of update) result }
{
    let RecordedUpdate {
        mut registry,
        b,
        big,
        pad,
        frames,
        records,
        update: last,
    } = before;
    match carry_out(&mut registry, &last) {
        Ok(()) => Ok(Last::Update(RecordedUpdate {
            registry,
            b,
            big,
            pad,
            frames: frames + 1,
            records: records + 1,
            update,
        })),
        Err(_) => Err(Last::Update(RecordedUpdate {
            registry,
            b,
            big,
            pad,
            frames,
            records,
            update: last,
        })),
    }
}
