ghost use Rattle.sse_journal.specs.Files.{IsPayload};

use crate::Stop;
use sse_journal::{Journal, MAX_PAYLOAD};
use sse_outside::{FileDisk, Sink, print_all};
use std::alloc::Global;

/// How many bytes of a record are turned into digits at once.
const PART: usize = 4096;

/// What is done with a journal.
#[derive(Clone, Copy, Debug, PartialEq, Eq)]
pub(crate) enum Request {
    /// Its records are printed.
    Print,
    /// The number of its records is printed.
    Count,
    /// So many records of so many bytes are appended.
    Append { count: u64, size: u32 },
}

impl Request {
    /// The request that the words after the file's name say.
    pub(crate) fn of(words: &[String]) -> Option<Request> {
        match words {
            [] => Some(Request::Print),
            [word] if word.as_str() == "count" => Some(Request::Count),
            [word, count, size] if word.as_str() == "append" => Some(Request::Append {
                count: count.parse().ok()?,
                size: size.parse().ok()?,
            }),
            _ => None,
        }
    }

    /// Starts the journal of a disk and does the request.
    pub(crate) fn run<W: Sink>(
        self,
        alloc: Global,
        disk: &mut FileDisk,
        sink: &mut W,
    ) -> Result<(), Stop> {
        if let Request::Append { size, .. } = self
            && (size == 0 || size > MAX_PAYLOAD)
        {
            return Err(Stop::Words);
        }
        let mut journal = Journal::start(alloc, disk)?;
        match self {
            Request::Print => print_records(alloc, &journal, disk, sink),
            Request::Count => {
                let line = format!(in alloc; "{}\n", journal.records())?;
                print_all(sink, line.as_bytes())?;
                Ok(())
            }
            Request::Append { count, size } => {
                let payload = vec![in alloc; 0x5a; size as usize]?;
                append_records(&mut journal, disk, count, &payload)
            }
        }
    }
}

/// Appends a payload so many times.
fn append_records(
    journal: &mut Journal,
    disk: &mut FileDisk,
    count: u64,
    payload: &[u8],
) -> Result<(), Stop>
    requires payload { IsPayload payload.now }
{
    for _ in 0..count {
        journal.reserve(payload.len() as u32)?;
        journal.append(disk, payload)?;
    }
    Ok(())
}

/// Prints the records of a journal from the first to the last.
fn print_records<W: Sink>(
    alloc: Global,
    journal: &Journal,
    disk: &mut FileDisk,
    sink: &mut W,
) -> Result<(), Stop> {
    let mut payload = Vec::new(alloc);
    let mut at = journal.first();
    for _ in 0..journal.records() {
        let Some(next) = journal.read(disk, at, &mut payload)? else {
            break;
        };
        print_record(&payload, sink)?;
        at = next;
    }
    Ok(())
}

/// Prints a record in a line, part by part, so that its digits take no memory.
fn print_record<W: Sink>(payload: &[u8], sink: &mut W) -> Result<(), Stop> {
    let mut digits = [0; 2 * PART];
    for part in payload.chunks(PART) {
        let (front, _) = digits.split_at_mut(2 * part.len());
        let _ = hex::encode_to_slice(part, front);
        print_all(sink, front)?;
    }
    print_all(sink, b"\n")?;
    Ok(())
}
