//! The sockets of a server that serves one connection after the other: both directions of a stream, with limits of
//! time, and the errors of `accept` after which the next connection is waited for. A frame that has begun must be whole
//! within two minutes and a reply taken within two minutes, whatever single bytes pass, and no read or write waits
//! longer than 60 seconds. Of the frames it knows their lengths alone.
//! Proved: which errors pass.
//! Not covered: what a socket and a clock do (tested by `.ci/served`).
//! Side: server.
#![tactic(auto)]

mod accept_errors;
mod frame_place;
mod timed_stream;

pub use accept_errors::{is_lost, is_short};
pub use timed_stream::{TimedReader, TimedWriter};
