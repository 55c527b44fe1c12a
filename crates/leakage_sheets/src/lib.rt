//! Computes all values of a history under its keys: for each epoch a finite table with the bytes of each name that it
//! draws or that a server looks up. It depends on `leakage_values` for the names, on `word_keys` and `search_token` for
//! values, and on `leakage_names` for the table. The keys of each word are made once an epoch. A pad is computed as the
//! zeros that it encrypts, so that no crate of keys hands out keystream.
//! Proved: `sheet_of` gives each of these names its value in the table of the keyed function under the key, of the
//! size that the parameters say, and no other name a value; or it is out of memory. `sheets_of` does the same for each
//! epoch: the first has the key given, each later one that of its renewal.
//! Not for: a client. Such a table holds pads in plaintext; it is for comparing what was sent with what a simulator
//! makes.
//! Side: client.
#![tactic(auto)]

mod dummies;
mod epoch_sheets;
mod held;
mod own_keys;
mod sheet;
mod words;

pub use epoch_sheets::sheets_of;
pub use sheet::sheet_of;
