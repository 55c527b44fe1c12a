//! Computes what a history draws under tables of values, one sheet an epoch, and the frames that a client sends for
//! it, and moves the tables to another history of equal leakage. It depends on `leakage_values` for the names,
//! `leakage_names` for the tables, `index_setup` for ranks, `leakage_plaintexts` for what is encrypted, and
//! `leakage_frames` and `leakage_model` for frames. It asks the tables and no keyed function, so one call serves keys,
//! random values and relabelled tables; a missing value is an error and not a condition, which callers would have to
//! test. No key is known here.
//! Proved: `draws` and `draws_of` are the draws of the definitions under every table whose values the sheets have;
//! `wire_frames` are the bytes of all frames that a client sends under it. `move_tables` gives the relabelled table,
//! or the first command at which the histories leak something else.
//! Side: client.
#![tactic(auto)]

mod bytes;
mod counted;
mod drawn;
mod drawn_epochs;
mod frames;
mod moved_tables;
mod names;
mod places;
mod ranks;
mod texts;
mod values;

pub use counted::{Counted, count};
pub use drawn::draws;
pub use drawn_epochs::draws_of;
pub use frames::wire_frames;
pub use moved_tables::{MoveFault, move_tables};
