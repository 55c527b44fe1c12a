//! The search token of a word: the five keys that a server needs to find the word's list and decrypt it. It depends
//! on `keyed_fn`, and knows neither words nor the master key, so client and server both use it. `PlusLabels` and
//! `Revocations` prepare a key for callers that ask for many values of one word.
//! Proved: each call gives the key formula of its name (`keyed_fn`, specs/KeyFormulas.antt) under the key of its
//! part; the token's 160 bytes are the five keys in order.
//! Not here: making a token from a word, which needs the master key (`word_keys`).
//! Side: server.

#![tactic(auto)]

mod plus_labels;
mod revocations;
mod token;

pub use plus_labels::PlusLabels;
pub use revocations::Revocations;
pub use token::Token;
