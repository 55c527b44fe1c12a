//! The entry that an addition sends for a word: the label of the word's counter, and the document's identifier
//! encrypted. It depends on `word_keys` for the word's two keys of additions, which a client may keep, and computes
//! each of the two values once.
//! Proved: `next_entry` is `new_entry` of specs/NewEntry.antt, or `CounterFull` exactly at the last counter.
//! Not here: counting; counters are in `client_registry`.
//! Side: client.
#![tactic(auto)]

mod entry;

pub use entry::{CounterFull, Entry, next_entry};
