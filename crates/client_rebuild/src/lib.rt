//! Rebuilds a client's history from the records of its journal, one after the other. It depends on `client_records`
//! for what the bytes say, on `client_registry` for documents and limits, on `client_live_docs` for the documents of a renewal,
//! and on `word_keys` for the check value of a key. The last record's command is kept apart and not carried out: only the
//! server's greeting shows which of its frames arrived, and they may have to be planned again.
//! Proved: the accepted records open to a history, and `Rebuild` represents it (`Rebuilds` of specs/Rebuilds.antt); a
//! record that isn't one, or isn't accepted after those before it, is named by its number; another key than the last epoch's
//! is reported at the end.
//! Not here: frames and disks.
//! Side: client.
#![tactic(auto)]

mod accepted_setup;
mod carried_command;
mod fault;
mod followed_record;
mod last;
mod rebuild;
mod rebuilt;
mod recorded_setup;
mod recorded_update;
mod taken_record;
mod taken_renewal;
mod update;

pub use fault::{RebuildFault, WrongKey};
pub use last::Last;
pub use rebuild::Rebuild;
pub use rebuilt::Rebuilt;
pub use recorded_setup::RecordedSetup;
pub use recorded_update::RecordedUpdate;
pub use update::Update;
