//! What a reply means to a client that isn't waiting for an acknowledgement: pages of an answer are gathered, and any
//! other reply is the fault that it reports. It depends on `sse_frames` for the bytes of replies.
//! Proved: a page is accepted exactly if it may follow those before it (`AfterPage` of specs/Pages.antt;
//! `pages-taken`), unless memory runs out; any other reply is the fault of specs/Faults.antt.
//! Not here: sending, and keys.
//! Side: client.
#![tactic(auto)]

mod found;
mod page_in;
mod reply_fault;

pub use found::{Found, Progress};
pub use reply_fault::{ReplyFault, fault_of};
pub use std::alloc::AllocError as NoMemory;
