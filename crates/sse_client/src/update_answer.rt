ghost use Rattle.std.specs.Prelude.{◌≡◌};
ghost use Rattle.sse_client.specs.UpdateFaults.{answer_to_line, answer_to_command};

use client_core::{CommandFault, PlannedUpdate};
use script_documents::LineFault;
use script_run_texts::CommandStop;
use sse_script::Refusal;

/// What an addition or a deletion comes to before anything of it is kept or sent.
#[derive(Drop)]
pub(crate) enum UpdateAnswer {
    /// It is planned.
    Planned(PlannedUpdate),
    /// It is refused.
    Refused(Refusal),
}

/// The answer if its document can't be made; want of memory ends the run instead.
pub(crate) fn answer_of_line(fault: LineFault) -> Result<UpdateAnswer, CommandStop>
    ensures { result ≡ answer_to_line fault }
{
    match fault {
        LineFault::Refused(refusal) => Ok(UpdateAnswer::Refused(refusal)),
        LineFault::NoMemory => Err(CommandStop::Memory),
    }
}

// Promise P140, also here; clauses: ensures
/// The answer if the client doesn't plan it; equal labels, equal numbers and want of memory end the run instead.
pub(crate) fn answer_of_command(fault: CommandFault) -> Result<UpdateAnswer, CommandStop>
    ensures { result ≡ answer_to_command fault }
{
    let refusal = match fault {
        CommandFault::AlreadyLive(id) => Refusal::AlreadyLive { id },
        CommandFault::UnknownDocument(id) => Refusal::UnknownDocument { id },
        CommandFault::CounterFull(position) => Refusal::CounterFull { position },
        CommandFault::HistoryFull => Refusal::HistoryFull,
        CommandFault::LabelClash { first, second } => {
            return Err(CommandStop::LabelClash { first, second });
        }
        CommandFault::NumberClash { first, second } => {
            return Err(CommandStop::NumberClash { first, second });
        }
        CommandFault::NoMemory => return Err(CommandStop::Memory),
    };
    Ok(UpdateAnswer::Refused(refusal))
}
