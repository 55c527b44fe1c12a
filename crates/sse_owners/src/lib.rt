//! The servers of many owners, with one journal for all on one file of a disk. It depends on `server_core` for what a
//! frame does to one server, on `sse_journal` for what a crash leaves, and on `sse_server` for the answers; it knows no
//! word and no key. A record is the owner's number in eight bytes and the frame's body. Owners aren't authenticated: a
//! number says whose frames come, and proves nothing of who sends them.
//! Proved: `Owners::handle` answers by the step of the chosen owner's server, and leaves every other server as it was;
//! after any crash `Owners::start` has taken each acknowledged frame and at most one more, for its own owner, or names
//! what is wrong with the file; what an owner is replied depends on this owner's frames only.
//! Side: server.
#![tactic(auto)]

mod isolation;
mod owned_record;
mod owners;
mod owners_fault;
mod replay;
mod rising;
mod taking;
mod unknown_owner;

pub use isolation::owners_are_apart;
pub use owners::Owners;
pub use owners_fault::OwnersFault;
pub use unknown_owner::UnknownOwner;
