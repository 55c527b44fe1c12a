//! Carries frames from client to server and replies back: the trait `Link`, over which the client is written, and
//! links in memory. Its ghost members let a contract speak of all that was sent and received. There are loopbacks to
//! a server in this process, with a journal on a disk or without one, that never fail or fail at chosen calls, and a
//! link that plays back replies, honest or not. `answer_bytes` is what a server replies to any bytes. It depends on
//! `sse_frames`, `server_core` and `sse_server`, and knows no word and no key.
//! Proved: all that a loopback reports is honest (`IsServed`): each frame had the server's step, or was out of
//! memory, or met a fault of the disk. If each had its step, the file at the server is the journal of the updates
//! (`IsStored` of specs/Stored.antt).
//! Not covered: a real connection.
//! Side: server.
#![tactic(auto)]

mod answers;
mod counts;
mod due;
mod fail;
mod link;
mod link_fault;
mod loopback;
mod remote;
mod scripted;
mod steady;
mod steady_store;
mod stored_answers;
mod transcript;
mod whole;

pub use answers::answer_bytes;
pub use def_link_events::{Mark, Passed};
pub use due::{Due, FULL_PAGE};
pub use fail::Fail;
pub use link::Link;
pub use link_fault::LinkFault;
pub use loopback::Loopback;
pub use scripted::ScriptedLink;
pub use std::alloc::AllocError as NoMemory;
pub use steady::SteadyLoopback;
pub use steady_store::SteadyStoreLoopback;
