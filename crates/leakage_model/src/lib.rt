//! Computes what a history leaks, so that a program can tell before anything is sent what a server would learn. It
//! depends on `leakage_history` for histories, on `def_leakage` for the definitions, and on `leakage_frames` for
//! the items. One pass goes over the commands with a `Trail`, a table by word of what a search of it would show. As
//! long as identifiers rise, an addition only writes at the end of its words' lists, so a history costs in proportion
//! to its commands and pairs.
//! Proved: `leak_epochs` is the leakage of the definitions, command by command through all epochs, or it is out of memory;
//! `leak_from` is the same for one epoch.
//! Not here: sending and keeping anything.
//! Side: client.
#![tactic(auto)]

mod leaks;
mod pair;
mod pairs;
mod setup_size;
mod trail;
mod trail_setup;
mod trail_table;
mod word_trail;

pub use leaks::{leak_epochs, leak_from};
pub use trail::Trail;
