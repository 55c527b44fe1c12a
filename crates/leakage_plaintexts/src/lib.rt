//! Computes the plaintexts of a history's setup: the cell and blocks of each word's list, laid out under any ranks of
//! the blocks, and zeros for the dummies. It depends on `leakage_history`, on `two_level` for the layout, and on
//! `index_setup` for all lists at once. Plaintexts are made apart from pads, so that ranks, layout and XOR are proved
//! one by one; no key, label or pad is known here.
//! Proved: `plaintexts` are those of the positions of the definitions, in their order, or it is out of memory.
//! Side: client.
#![tactic(auto)]

mod laid_texts;
mod size;
mod text;

pub use laid_texts::plaintexts;
pub use text::Text;
