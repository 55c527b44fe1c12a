//! The journal: records appended to one file of any disk, which outlive a crash at any moment. It depends only on the
//! trait `Disk` of `sse_outside` and doesn't know what a record means; specs/Files.antt has the format. A record is
//! synced before the one commit byte in front of it is written, so a torn write does no harm and no checksum is
//! needed. A start cuts the file's tail and then clears the commit byte; without both, a torn write of the next
//! append could join what stood there. A failed append makes the journal unusable until the next start, since the
//! file may hold the record or not.
//! Proved: from `Ok` of `append` on, every crash leaves the record. A crash during the call leaves the earlier
//! records, with the new one or without. `start` gives exactly the records of the file, or names the place where it
//! stops being a journal.
//! Side: both.
#![tactic(auto)]

mod append_fault;
mod append_steps;
mod head;
mod journal;
mod payload;
mod read_fault;
mod repair;
mod start;
mod start_fault;
mod walk;

pub use append_fault::AppendFault;
pub use head::MAX_PAYLOAD;
pub use journal::Journal;
pub use read_fault::ReadFault;
pub use start_fault::StartFault;
pub use std::alloc::AllocError as NoMemory;
