//! How a client's run begins on a disk, or resumes from its records, which are read back into a `Rebuilt`; and what it leaves
//! there. It depends on `sse_journal` for the file, on `client_rebuild` for the records, on `client_recorder` for what was kept,
//! and on `script_run_texts` for why a run ends. A run that begins refuses a file with records, and one that resumes a file
//! without: either guess could lose work. A bad record ends the run and changes nothing, since those after it were kept too.
//! Proved: `begin` gives a journal exactly for a file without a record, and `reopen` exactly for one with records, unless
//! the disk failed or memory ran out. `rebuild` takes all records, or names the first that can't be there, or reports
//! another key. Laws: the disk has what a recorder kept (specs/DiskRuns.antt), and the file at rest is exactly that.
//! Not here: sending, and writing records.
//! Side: client.
#![tactic(auto)]

mod faults;
mod journal_rebuild;
mod journal_start;

pub use journal_rebuild::rebuild;
pub use journal_start::{begin, reopen};
