//! The client's protocol: what it sends for a command, and which state a reply leads to. It depends on `index_setup`,
//! `add_counters` and `revocation_ids` for what is sent, on `client_tag_order` for equal values, on `client_replies` for
//! faults, on `client_rebuild` to resume, on `client_renewal` to renew its key, and on `sse_frames`. A client is in one of
//! five states and each step consumes it, so no frame can be planned over a state that is gone. A plan takes all its memory,
//! so that taking it as done can't fail; it writes its record only on request, since a setup's has up to 71 MB.
//! Proved: a client represents a history (`StandsFor`), a reply makes of it what `AfterReply` says, and one rebuilt
//! from records resumes as `Resumes` says. A command is planned as the frames of the definitions, or refused by the
//! first cause, or it is out of memory.
//! Not here: links, disks and output (`sse_client`).
//! Side: client.
#![tactic(auto)]

mod behind;
mod client;
mod command_fault;
mod equal_values;
mod fresh;
mod kept_keys;
mod new_pairs;
mod owed_setup;
mod owed_update;
mod planned;
mod planned_renewal;
mod planned_update;
mod ready;
mod ready_plans;
mod recorded;
mod recorded_plans;
mod renewals;
mod restored;
mod resume_fault;
mod resumed;
mod setup_frames;
mod taken;
mod update;
mod update_frames;
mod update_plans;

pub use behind::Behind;
pub use client::{Client, Spent};
pub use command_fault::{CommandFault, HistoryFull, frames_after};
pub use fresh::Fresh;
pub use index_setup::BuildFault as SetupFault;
pub use planned::Planned;
pub use planned_renewal::PlannedRenewal;
pub use planned_update::PlannedUpdate;
pub use ready::Ready;
pub use recorded::Recorded;
pub use restored::Restored;
pub use resume_fault::ResumeFault;
pub use resumed::Resumed;
pub use std::alloc::AllocError as NoMemory;
pub use taken::Taken;
pub use update::Update;
