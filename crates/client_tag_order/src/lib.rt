//! Sorts 16-byte values (labels, place tags and revocation numbers) with their positions, and finds the first two
//! that are equal. A command with two equal values can't be sent, and all three kinds are compared in this one way.
//! `by_tag` needs the memory of the list and of the sort; `first_clash` goes through the sorted list once and takes
//! none, less than a table of the values seen. It depends on `client_registry` for which two equal values are named,
//! and on `sse_frames` for the order of sending; it knows no key and no word.
//! Proved: for tags in order (`IsOrderOf` of specs/Tagged.antt) the collision found is that of the tags by position.
//! Side: client.
#![tactic(auto)]

mod order;
mod tagged;

pub use order::{by_tag, first_clash};
pub use std::alloc::AllocError as NoMemory;
pub use tagged::Tagged;
