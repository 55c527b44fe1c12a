//! The simulator as a call: leakage and drawn values as values of a program, and the bytes that the simulator makes
//! of them. So a program can compare what a server sees with what the server could make itself. It depends on
//! `sse_simulator` for the definitions and on `sse_frames`, and on no crate that knows a word, a document or the
//! master key. It has its own writers, since those of `sse_frames` take only frames of the grammar, while every draw
//! has bytes here.
//! Proved: `simulate_step` and `simulate` give the bytes of the definitions, or the number of the first item that
//! names something that isn't there, even if memory is short; two items are the same exactly if they mean the same
//! (`same_leak`).
//! Side: server.
#![tactic(auto)]

mod absent;
mod body;
mod bytes;
mod drawn;
mod earlier;
mod entry;
mod fault;
mod kept;
mod leak;
mod made_frames;
mod not_made;
mod passed;
mod same;
mod sim;

pub use fault::SimFault;
pub use leak::{Draw, Home, Leak, ListedLeak, Origin, Seen, Sent, WordLeak};
pub use same::same_leak;
pub use sim::{Sim, simulate, simulate_step};
