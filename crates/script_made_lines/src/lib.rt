//! A script made from a seed and a number of documents, for `gen SEED N`: its text, and the line that sums up its run
//! (docs/FORMATS.md). It has a key, N documents of made words, a setup, deletions,
//! additions and 200 searches. `MadeScript` is a source that holds one line at a time and takes no memory, so a
//! session runs it like any script. The summary is counted in the printed text, so its definition needs no history.
//! It depends on `sse_outside` for sources and sinks, and on `sse_script` for lines.
//! Proved: what a new source has left is the script of specs/Script.antt, and it never fails; the summary is that of
//! what the run printed (specs/Summary.antt).
//! Side: client.
#![tactic(auto)]

mod line_at;
mod line_buffer;
mod made;
mod made_line;
mod number;
mod printed;
mod source;
mod summary;

pub use line_buffer::words_line;
pub use made::Made;
pub use source::MadeScript;
pub use summary::print_summary;
