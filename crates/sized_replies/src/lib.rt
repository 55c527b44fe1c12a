//! Replies that begin with their length, four bytes with the high byte first: where one ends, and how one is taken out of a
//! source. It is for links over a stream and links that play back replies, of the index and of the vault, which differ in
//! the longest reply; it depends on `sse_outside`, and knows no reply.
//! Proved: one reply is taken, of exactly its bytes, or the source ended or failed.
//! Side: both.
#![tactic(auto)]

mod bodies;
mod sizes;

pub use bodies::take_reply;
pub use sizes::size_in_front;
