//! The lines of events of a client and a server, as text: `read_world_line` parses one, which may be a line of a script, and
//! `print_world_line` prints what an event came to, and what is there at the end. It depends on `sse_script` for fields, numbers
//! and the lines of scripts.
//! Proved: a line is read if and only if it is in the grammar of specs/WorldLines.antt; a sink took the text of
//! specs/WorldTexts.antt or, after a fault, a strict prefix of it.
//! Not here: whether a document or a word can be, and what an event does.
//! Side: client.
#![tactic(auto)]

mod printed_line;
mod world_line;
mod world_line_grammar;
mod world_shown;
mod world_text;

pub use printed_line::print_world_line;
pub use world_line::{Side, WorldLine};
pub use world_line_grammar::read_world_line;
pub use world_shown::WorldShown;
