ghost use Rattle.std.specs.Prelude.{◌≡◌, ◌≤◌, ◌++◌, ◌∷◌, [], IsErr, List, OnErr, OnOk, true};
ghost use Rattle.client_registry.specs.Command.{Command as Meant};
ghost use Rattle.client_registry.specs.Registered.{KeepsNumbers, Represents, facts};
ghost use Rattle.client_registry.specs.Setup.{Setup};
ghost use Rattle.leakage_history.specs.Commands.{command_of};
ghost use Rattle.leakage_history.specs.Refusal.{is_accepted_by};

use crate::command::Command;
use client_registry::Registry;
use std::alloc::AllocError;

// Promise P76, also here; clauses: ok, err
/// Tells a registry a command that is accepted after those that it was told. A search changes nothing.
///
/// Error: where there is no memory for an addition; what the registry tells is as before then.
pub fn register(registry: &mut Registry, command: &Command) -> Result<(), AllocError>
    requires accepted { is_accepted_by (facts registry.old) (command_of command.now) ≡ true }
    ensures ok { OnOk result ((s : Setup) (past : List Meant) → Represents registry.old s past → Represents registry.new s (past ++ command_of command.now ∷ [])) }
    ensures err { OnErr result (facts registry.new ≡ facts registry.old) }
    ensures words { KeepsNumbers registry.old registry.new }
    ensures keys { registry.new.keys ≡ registry.old.keys }
{
    match command {
        Command::Add(doc) => {
            let numbers = registry.reserve_numbered(doc)?;
            registry.add_numbered(doc, numbers.as_slice());
            Ok(())
        }
        Command::Delete(id) => {
            registry.delete(*id).unwrap();
            Ok(())
        }
        Command::Search(_) => Ok(()),
    }
}
