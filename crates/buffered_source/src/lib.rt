//! A source that takes more of another than is asked for, and keeps the rest, so that a reply of a few bytes comes with one call
//! of a socket. It depends on `sse_outside` for sources and takes no memory of its own.
//! Proved: it hands out the bytes of the other source, all of them and in their order, and fails only where the other one fails.
//! Not here: how many calls it makes, which is measured.
//! Side: both.
#![tactic(auto)]

mod buffered;

pub use buffered::BufferedSource;
