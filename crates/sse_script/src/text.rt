ghost use Rattle.std.specs.Prelude.{◌≡◌, IfOk, string_bytes};
ghost use Rattle.sse_script.specs.ShownViews.{shown_view};
ghost use Rattle.sse_script.specs.Texts.{text_of};

use crate::Shown;
use crate::pieces::{listed, one};
use crate::stop_line::stop_line;
use std::alloc::{AllocError, Global};

/// The bytes of a line as it is printed, its end included.
pub fn line_text(alloc: Global, shown: &Shown<'_>) -> Result<String, AllocError>
    ensures { IfOk result (λ text. string_bytes text ≡ text_of (shown_view shown.now)) }
{
    match *shown {
        Shown::SetUp { words, blocks } => {
            format!(in alloc; "set up {words} words {blocks} blocks\n")
        }
        Shown::Rebuilt { words, blocks } => {
            format!(in alloc; "rebuilt {words} words {blocks} blocks\n")
        }
        Shown::Added { id } => one(alloc, "added ", id, "\n"),
        Shown::Deleted { id } => one(alloc, "deleted ", id, "\n"),
        Shown::Found { ids } => listed(alloc, "found ", ids),
        Shown::Matched { ids } => listed(alloc, "matched ", ids),
        Shown::Resumed { frames } => one(alloc, "resumed ", u64::from(frames), " frames\n"),
        Shown::Refused(refusal) => format!(in alloc; "refused: {refusal}\n"),
        Shown::Stopped(cause) => String::from_str(alloc, stop_line(&cause).as_str()),
    }
}
