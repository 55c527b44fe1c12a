use leakage_frames::Draw;
use sse_frames::Items;
use std::alloc::{AllocError, Global};

/// Appends a number in decimal digits.
pub(crate) fn push_number(text: &mut String, alloc: Global, number: u64) -> Result<(), AllocError> {
    let digits = format!(in alloc; "{number}")?;
    text.push_str(digits.as_str())
}

/// Appends a mark, and bytes in hexadecimal digits behind it.
pub(crate) fn push_marked(
    text: &mut String,
    alloc: Global,
    mark: &str,
    bytes: &[u8],
) -> Result<(), AllocError> {
    text.push_str(mark)?;
    let digits = hex::encode(alloc, bytes)?;
    text.push_str(digits.as_str())
}

/// Appends a draw: a blank, then its label, tag, number or token; behind a label or a tag a colon and the text.
fn push_draw(text: &mut String, alloc: Global, draw: &Draw) -> Result<(), AllocError> {
    match draw {
        Draw::Entry { label, cell } => {
            push_marked(text, alloc, " ", label)?;
            push_marked(text, alloc, ":", cell.as_slice())
        }
        Draw::Block { tag, block } => {
            push_marked(text, alloc, " ", tag)?;
            push_marked(text, alloc, ":", block.as_slice())
        }
        Draw::Number(number) => push_marked(text, alloc, " ", number),
        Draw::Token(token) => push_marked(text, alloc, " ", token.as_slice()),
    }
}

/// Appends the line of a command's draws.
pub(crate) fn push_draws(
    text: &mut String,
    alloc: Global,
    draws: &[Draw],
) -> Result<(), AllocError> {
    text.push_str("draws")?;
    for draw in draws {
        push_draw(text, alloc, draw)?;
    }
    text.push_str("\n")
}

/// The least kind byte of a reply.
const FIRST_REPLY: u8 = 0x80;

/// Appends the line of a frame or a reply, which has its kind behind four bytes of length.
fn push_passing(text: &mut String, alloc: Global, passed: &[u8]) -> Result<(), AllocError> {
    let is_reply = match passed.get(4) {
        Some(kind) => *kind >= FIRST_REPLY,
        None => false,
    };
    let mark = if is_reply { "< " } else { "> " };
    push_marked(text, alloc, mark, passed)?;
    text.push_str("\n")
}

/// Appends what passes, a line for each frame and each reply.
pub(crate) fn push_all_passing(
    text: &mut String,
    alloc: Global,
    passing: &[Items<u8>],
) -> Result<(), AllocError> {
    for passed in passing {
        push_passing(text, alloc, passed.as_slice())?;
    }
    Ok(())
}
