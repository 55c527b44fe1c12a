//! Builds the encrypted index of a setup in flat bytes: one entry per word, by rising label, and the encrypted blocks
//! of longer lists, by rising place tag. Dummies, encrypted zeros of no word, are ranked among both, so that the
//! exact numbers don't show. Labels and tags are computed and sorted first, so that equal ones are found without
//! memory. Then each cell and block is written and encrypted in the place that it is sent from: there is no second
//! copy of the index. It depends on `word_keys`, the only way to labels and keystream, on `two_level`, `client_tag_order`
//! and `client_registry`. `lists_of`, `ranks` and `blocks_in` are for callers that know no key.
//! Proved: `build` makes the index of the definitions, or names its first fault, or is out of memory, but never in
//! place of equal labels or tags that it found.
//! Not here: frames (`client_core`).
//! Side: client.
#![tactic(auto)]

mod dummies;
mod entry_bytes;
mod fault;
mod index;
mod index_build;
mod labels;
mod lists;
mod order;

pub use fault::BuildFault;
pub use index::Index;
pub use index_build::build;
pub use labels::blocks_in;
pub use lists::lists_of;
pub use order::ranks;
