use std::error::Error;
use std::fmt;

/// Why bytes are no frame or no reply: the first fault from the left.
#[derive(Clone, Copy, Debug, PartialEq, Eq)]
pub enum FrameFault {
    /// The length of the body, in bytes, is 0 or above the limit.
    BadLength(u64),
    /// The first byte of the body is no kind.
    BadKind(u8),
    /// The field that begins at this byte of the body, counted from 0 at the kind byte, is cut short,
    /// out of its range or not above the one before it; or the body's fields end here and bytes follow.
    BadBody(u64),
}

impl fmt::Display for FrameFault {
    ghost use Rattle.std.specs.Prelude.{Some};
    ghost use Rattle.sse_frames.specs.Texts.{frame_fault_text};

    ghost output = { λ fault. Some (frame_fault_text fault) };

    fn fmt<W: fmt::Write>(&self, f: &mut fmt::Formatter<W>) -> fmt::Result {
        match self {
            FrameFault::BadLength(n) => write!(
                f,
                "a body of {n} bytes is empty or above the limit"
            ),
            FrameFault::BadKind(byte) => write!(f, "byte {byte} is no kind of frame or reply"),
            FrameFault::BadBody(place) => write!(f, "the body is not valid at byte {place} from 0"),
        }
    }
}

impl Error for FrameFault {}
