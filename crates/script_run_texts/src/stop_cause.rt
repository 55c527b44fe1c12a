ghost use Rattle.std.specs.Prelude.{◌≡◌, ◌≢◌, ◌≤◌, option_map};
ghost use Rattle.script_run_texts.specs.Stops.{command_cause, input_cause, peer_cause, stop_cause, stop_status};
ghost use Rattle.sse_script.specs.ShownViews.{cause_view};
ghost use Rattle.sse_script.specs.Stops.{cause_status};

use crate::{CommandStop, InputStop, PeerStop};
use sse_outside::DeviceFault;
use sse_script::Cause;
use std::alloc::{AllocError, AllocFailed};

/// What ends a run before the end of its input.
#[derive(Drop)]
pub enum StopCause {
    /// The words of the command line aren't right.
    Words,
    /// The reading of its script.
    Input(InputStop),
    /// The sink failed.
    Sink,
    /// There is no memory for what is printed, or to begin with.
    Memory,
    /// A command, or the greeting before the first.
    Command(CommandStop),
}

impl StopCause {
    /// The exit status.
    pub fn status(&self) -> u8
        ensures status { result ≡ stop_status self.now }
        ensures source { result ≡ 3 → self.now ≡ StopCause.Input InputStop.Source }
        ensures sink { result ≡ 4 → self.now ≡ StopCause.Sink }
        ensures link { result ≡ 5 → self.now ≡ StopCause.Command (CommandStop.Exchange PeerStop.Link) }
        ensures disk { result ≡ 6 → self.now ≡ StopCause.Command (CommandStop.Keeping DeviceFault.Failed) }
        ensures known { (2 ≤ result) × (result ≤ 9) }
    {
        match self {
            StopCause::Words => 2,
            StopCause::Input(InputStop::Line(_)) => 2,
            StopCause::Input(InputStop::Source) => 3,
            StopCause::Input(InputStop::Memory) => 7,
            StopCause::Sink => 4,
            StopCause::Memory => 7,
            StopCause::Command(CommandStop::LabelClash { .. }) => 8,
            StopCause::Command(CommandStop::PlaceClash { .. }) => 8,
            StopCause::Command(CommandStop::NumberClash { .. }) => 8,
            StopCause::Command(CommandStop::Memory) => 7,
            StopCause::Command(CommandStop::Keeping(DeviceFault::Failed)) => 6,
            StopCause::Command(CommandStop::Keeping(DeviceFault::NoMemory)) => 7,
            StopCause::Command(CommandStop::Exchange(stop)) => peer_status(stop),
        }
    }

    /// The cause that the last line of the run tells; none where the sink is what failed.
    pub fn cause(&self) -> Option<Cause<'_>>
        ensures { option_map (λ cause. cause_view cause) result ≡ stop_cause self.now }
    {
        match self {
            StopCause::Words => Some(Cause::BadWords),
            StopCause::Input(stop) => Some(cause_of_input(*stop)),
            StopCause::Sink => None,
            StopCause::Memory => Some(Cause::NoMemory),
            StopCause::Command(stop) => Some(cause_of_command(stop)),
        }
    }
}

/// The status where the exchange with the server ended the run.
fn peer_status(stop: &PeerStop) -> u8
    ensures status { result ≡ cause_status (peer_cause stop.now) }
    ensures link { result ≡ 5 → stop.now ≡ PeerStop.Link }
    ensures known { (5 ≤ result) × (result ≤ 9) × (result ≢ 6) }
{
    match stop {
        PeerStop::Link => 5,
        PeerStop::Memory => 7,
        PeerStop::Clash { .. } => 8,
        PeerStop::Elsewhere { .. } => 9,
        PeerStop::BadReply(_) => 9,
    }
}

/// The cause that is printed where the reading of the script ended the run.
fn cause_of_input(stop: InputStop) -> Cause<'static>
    ensures { cause_view result ≡ input_cause stop }
{
    match stop {
        InputStop::Line(number) => Cause::BadLine { number },
        InputStop::Source => Cause::SourceFault,
        InputStop::Memory => Cause::NoMemory,
    }
}

/// The cause that is printed if a command ended the run.
fn cause_of_command(stop: &CommandStop) -> Cause<'_>
    ensures { cause_view result ≡ command_cause stop.now }
{
    match stop {
        CommandStop::LabelClash { first, second } => Cause::LabelClash {
            first: *first,
            second: *second,
        },
        CommandStop::PlaceClash { first, second } => Cause::PlaceClash {
            first: *first,
            second: *second,
        },
        CommandStop::NumberClash { first, second } => Cause::NumberClash {
            first: *first,
            second: *second,
        },
        CommandStop::Memory => Cause::NoMemory,
        CommandStop::Keeping(DeviceFault::Failed) => Cause::DiskFault,
        CommandStop::Keeping(DeviceFault::NoMemory) => Cause::NoMemory,
        CommandStop::Exchange(stop) => cause_of_peer(stop),
    }
}

/// The cause if that was the exchange with the server.
fn cause_of_peer(stop: &PeerStop) -> Cause<'_>
    ensures { cause_view result ≡ peer_cause stop.now }
{
    match stop {
        PeerStop::Link => Cause::LinkFault,
        PeerStop::Memory => Cause::NoMemory,
        PeerStop::Clash { what, place } => Cause::Clash {
            what: *what,
            place: *place,
        },
        PeerStop::Elsewhere { low, high, got } => Cause::PeerElsewhere {
            low: *low,
            high: *high,
            got: *got,
        },
        PeerStop::BadReply(start) => Cause::BadReply {
            reply: start.as_slice(),
        },
    }
}

impl From<InputStop> for StopCause {
    ghost use Rattle.script_run_texts.specs.declared.stop_cause.StopCause.TheVariants.{Input};

    ghost from_gives = { λ input stop. stop ≡ Input input };

    fn from(stop: InputStop) -> StopCause {
        StopCause::Input(stop)
    }
}

impl From<DeviceFault> for StopCause {
    ghost use Rattle.script_run_texts.specs.Stops.{stop_of_sink};

    ghost from_gives = { λ fault stop. stop ≡ stop_of_sink fault };

    fn from(fault: DeviceFault) -> StopCause {
        match fault {
            DeviceFault::Failed => StopCause::Sink,
            DeviceFault::NoMemory => StopCause::Memory,
        }
    }
}

impl From<CommandStop> for StopCause {
    ghost use Rattle.script_run_texts.specs.declared.stop_cause.StopCause.TheVariants.{Command};

    ghost from_gives = { λ command stop. stop ≡ Command command };

    fn from(stop: CommandStop) -> StopCause {
        StopCause::Command(stop)
    }
}

impl From<PeerStop> for StopCause {
    ghost use Rattle.script_run_texts.specs.declared.command_stop.CommandStop.TheVariants.{Exchange};
    ghost use Rattle.script_run_texts.specs.declared.stop_cause.StopCause.TheVariants.{Command};

    ghost from_gives = { λ peer stop. stop ≡ Command (Exchange peer) };

    fn from(stop: PeerStop) -> StopCause {
        StopCause::Command(CommandStop::Exchange(stop))
    }
}

impl From<AllocError> for StopCause {
    ghost use Rattle.script_run_texts.specs.declared.stop_cause.StopCause.TheVariants.{Memory};

    ghost from_gives = { λ _ stop. stop ≡ Memory };

    fn from(_e: AllocError) -> StopCause {
        StopCause::Memory
    }
}

impl<T: Drop> From<AllocFailed<T>> for StopCause {
    ghost use Rattle.script_run_texts.specs.declared.stop_cause.StopCause.TheVariants.{Memory};

    ghost from_gives = { λ _ stop. stop ≡ Memory };

    fn from(_e: AllocFailed<T>) -> StopCause {
        StopCause::Memory
    }
}
