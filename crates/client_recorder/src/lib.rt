//! Where a client keeps its records from one run to the next: the trait `Recorder`, by which a session stores a
//! command before it sends anything of it. A journal on a disk (`sse_journal`) implements it, and `NoRecords`, which
//! keeps nothing. A session sees only this one call, so crash images and broken journals stay out of its contracts. A
//! refused record stays with the recorder, so that what a crash may leave is a value of the recorder alone.
//! Proved: after `Ok` the record follows the earlier ones and every crash leaves it; after an error a crash leaves it
//! or doesn't; the count of faults rises if the disk was the reason.
//! Not here: what a record means (`client_records`).
//! Side: client.
#![tactic(auto)]

mod journal_recorder;
mod no_records;
mod recorder;

pub use journal_recorder::JournalRecorder;
pub use no_records::NoRecords;
pub use recorder::Recorder;
