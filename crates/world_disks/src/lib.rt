//! A journal on a disk in memory that may stop inside a call: what a side of a world has after an append or a start of its
//! journal, and after a stop. A stop is a planned failure of one call of the disk; the side that meets it is gone, and the
//! disk goes on from one of the images that a crash may leave there. It stands on `sse_journal` and `outside_memory_disk`
//! alone, and says in the words of `world_model` what their calls leave.
//! Proved: an append or a start stops if and only if the number of the stop is among the calls that it made of its disk;
//! then the disk gives the records of before, with the one in hand or without it.
//! Side: both.
#![tactic(auto)]

mod appended;
mod started;
mod stop;

pub use appended::{Appended, append};
pub use started::{Unstarted, start, start_counted};
pub use stop::{Met, Stop, crash, plan_stop, stop_if_met};
