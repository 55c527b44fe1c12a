ghost use Rattle.std.specs.Prelude.{◌≡◌, IsErrOf, OnErr, OnOk};
ghost use Rattle.std.specs.Io.KnownBytes.{append_known};
ghost use Rattle.tool_journal_records.specs.Lines.{stop_line};
ghost use Rattle.tool_journal_records.specs.Statuses.{status_of};
ghost use Rattle.sse_outside.specs.Causes.{Rose};
ghost use Rattle.sse_outside.specs.Fronts.{TookFront};

use sse_journal::{AppendFault, ReadFault, StartFault};
use sse_outside::{DeviceFault, Sink, print_all};
use std::alloc::{AllocError, Global};
use std::fmt;

/// Why a request was not done.
#[derive(Clone, Copy, Debug, PartialEq, Eq)]
pub(crate) enum Stop {
    /// The words of the command line name no request.
    Words,
    /// The file can't be opened for reading and writing.
    NotOpened,
    /// The journal was not started.
    Start(StartFault),
    /// A record was not appended.
    Append(AppendFault),
    /// A record was not read.
    Read(ReadFault),
    /// Standard output did not take what was printed.
    Output(DeviceFault),
    /// There was no memory.
    NoMemory,
}

impl Stop {
    /// The status that the program ends with.
    pub(crate) fn status(self) -> u8
        ensures { result ≡ status_of self }
    {
        match self {
            Stop::Words => 2,
            Stop::Output(DeviceFault::Failed) => 4,
            Stop::NotOpened
            | Stop::Start(StartFault::DiskFault)
            | Stop::Append(AppendFault::DiskFault | AppendFault::Broken)
            | Stop::Read(ReadFault::DiskFault) => 6,
            Stop::Start(StartFault::NotAJournal(_)) | Stop::Read(ReadFault::NotAJournal(_)) => 10,
            _ => 7,
        }
    }

    /// Prints the cause in a line. After an error the sink has taken a proper front of it: with `DeviceFault::Failed` its count of
    /// faults rose, and with `DeviceFault::NoMemory`, which may come before anything is written, that count stays.
    pub(crate) fn print<W: Sink>(self, alloc: Global, sink: &mut W) -> Result<(), DeviceFault>
        ensures all { OnOk result (W.written sink.new ≡ append_known (W.written sink.old) (stop_line self)) }
        ensures front { OnErr result (TookFront (W.written sink.old) (W.written sink.new) (stop_line self)) }
        ensures failed { IsErrOf result DeviceFault.Failed → Rose (W.faults sink.old) (W.faults sink.new) }
        ensures steady { OnOk result (W.faults sink.new ≡ W.faults sink.old) }
        ensures no_memory { IsErrOf result DeviceFault.NoMemory → W.faults sink.new ≡ W.faults sink.old }
    {
        let line = format!(in alloc; "{self}\n")?;
        print_all(sink, line.as_bytes())
    }
}

impl fmt::Display for Stop {
    ghost use Rattle.std.specs.Prelude.{Some};
    ghost use Rattle.tool_journal_records.specs.Lines.{stop_text};

    ghost output = { λ stop. Some (stop_text stop) };

    fn fmt<W: fmt::Write>(&self, f: &mut fmt::Formatter<W>) -> fmt::Result {
        match self {
            Stop::Words => f.write_str(
                "usage: tool_journal_records FILE [count | append COUNT SIZE]",
            ),
            Stop::NotOpened => f.write_str("the file can't be opened"),
            Stop::Start(fault) => write!(f, "{fault}"),
            Stop::Append(fault) => write!(f, "{fault}"),
            Stop::Read(fault) => write!(f, "{fault}"),
            Stop::Output(fault) => write!(f, "{fault}"),
            Stop::NoMemory => f.write_str("out of memory"),
        }
    }
}

impl From<StartFault> for Stop {
    fn from(fault: StartFault) -> Stop {
        Stop::Start(fault)
    }
}

impl From<AppendFault> for Stop {
    fn from(fault: AppendFault) -> Stop {
        Stop::Append(fault)
    }
}

impl From<ReadFault> for Stop {
    fn from(fault: ReadFault) -> Stop {
        Stop::Read(fault)
    }
}

impl From<DeviceFault> for Stop {
    fn from(fault: DeviceFault) -> Stop {
        Stop::Output(fault)
    }
}

impl From<AllocError> for Stop {
    fn from(_error: AllocError) -> Stop {
        Stop::NoMemory
    }
}
