//! What a command shows to a server, as a line that a person reads. It depends on `leakage_frames` for the items of
//! leakage, and on no crate that knows a word, a document or the master key, so a line can't say more than a server
//! learns. New words that were never searched are counted and not listed, since a server can't tell them apart.
//! Proved: `leak_line` is the text of specs/LeakTexts.antt, by cases of the item, or it is out of memory.
//! Not here: computing what a history leaks (`leakage_model`), and printing.
//! Side: server.
#![tactic(auto)]

mod line;
mod numbers;
mod search;
mod update;

pub use line::leak_line;
