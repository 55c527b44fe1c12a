//! The script language of the client's programs: its lines as they are read, and every line that is printed.
//! `LineReader` cuts a source into lines, `read_line` parses one into a `Line` that borrows its words, `print` writes
//! a `Shown` to a sink, and `print_stop` writes why a run stopped, without taking memory. A line above 2^19 bytes is
//! skipped to its end and never kept whole. It depends on `sse_outside` for sources and sinks.
//! Proved: the lines are those of the source's bytes, each read by the grammar of specs/Lines.antt; a sink took the
//! text of specs/Texts.antt or, after a fault, a strict prefix of it.
//! Not here: whether a field is a word of a document, and what a command does.
//! Side: client.
#![tactic(auto)]

mod bad_line;
mod cause;
mod fields;
mod key;
mod line;
mod line_grammar;
mod line_reader;
mod next_line;
mod number;
mod pieces;
mod printed_line;
mod read_stop;
mod refusal;
mod shown;
mod stop_line;
mod text;

pub use bad_line::BadLine;
pub use cause::Cause;
pub use fields::Fields;
pub use key::read_key;
pub use line::Line;
pub use line_grammar::read_line;
pub use line_reader::{LineReader, MAX_LINE};
pub use next_line::NextLine;
pub use number::read_number;
pub use printed_line::print;
pub use read_stop::ReadStop;
pub use refusal::Refusal;
pub use shown::Shown;
pub use std::alloc::AllocError as NoMemory;
pub use stop_line::print_stop;
