//! Computes what a history draws and looks up: for each command the names of the values that it sends or uses first,
//! and of those that a server looks up for it. A history is one epoch here, and the caller gives its number, which
//! stands in each name. A word appears only by its number, so a table of values (`leakage_names`) holds no word. It
//! depends on `leakage_history` for histories, and on the definitions of `def_leakage`, `sse_model` and
//! `def_comparison`. Each call makes one pass over the commands, and remembers what was sent by pair and what was
//! searched by word. No key and no value is known here.
//! Proved: `drawings`, `drawn_names` and `probed_names` are those of the definitions, command by command;
//! `used_names` are all of these names, each once; or memory ran out.
//! Side: client.
#![tactic(auto)]

mod all_names;
mod commands;
mod draw_list;
mod drawn;
mod listed;
mod names;
mod numbered_names;
mod probed;
mod replay;
mod setup;

pub use all_names::used_names;
pub use draw_list::drawings;
pub use drawn::Drawing;
pub use names::drawn_names;
pub use probed::probed_names;
