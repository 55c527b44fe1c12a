//! The texts of a run: what its command line asks for, its input lines with their numbers, and what it prints. Words
//! ask for a `Mode`, or for a `DiskMode` if a disk keeps the records.
//! A `LineResult` is the outcome of a line, a `StopCause` is why a run ended early, and a `JournalStop` is why it
//! ended while its journal was opened; each has a status and a last line. It depends on `sse_script` and
//! `sse_outside`, and knows no key, link or history.
//! Proved: the lines that are left are those of the source's bytes. The text of an outcome and the last line are
//! printed completely, or a strict prefix of them if a count of the sink rose or memory ran out.
//! Side: client.
#![tactic(auto)]

mod command_stop;
mod input;
mod input_stop;
mod journal_stop;
mod last_lines;
mod line_result;
mod peer_stop;
mod stop_cause;
mod twin_line;
mod words;

pub use command_stop::CommandStop;
pub use input::Input;
pub use input_stop::InputStop;
pub use journal_stop::JournalStop;
pub use last_lines::{finish, finish_unopened};
pub use line_result::LineResult;
pub use peer_stop::{PeerStop, ReplyStart};
pub use stop_cause::StopCause;
pub use words::{DiskMode, Mode, disk_mode_of, mode_of};
