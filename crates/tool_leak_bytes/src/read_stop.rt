use script_run_texts::{InputStop, StopCause};
use std::io;

/// What stops where standard input gives this error.
pub(crate) fn read_stop(error: &io::Error) -> StopCause {
    match error.kind() {
        io::ErrorKind::OutOfMemory => StopCause::Memory,
        _ => StopCause::Input(InputStop::Source),
    }
}
