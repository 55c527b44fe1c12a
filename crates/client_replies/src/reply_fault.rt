ghost use Rattle.std.specs.Prelude.{◌≡◌};
ghost use Rattle.sse_frames.specs.Replies.{ReplyText, reply_bytes, StoreFault};
ghost use Rattle.sse_frames.specs.FrameViews.{reply_view};
ghost use Rattle.sse_frames.specs.ReadOutcomes.{IsReply};
ghost use Rattle.client_replies.specs.Faults.{fault_told, IsFaultOf};

use sse_frames::{Reply, read_whole_reply};
use std::alloc::AllocError;
use std::error::Error;
use std::fmt;

/// Why a reply ends the client's run.
#[derive(Debug, Clone, Copy, PartialEq, Eq)]
pub enum ReplyFault {
    /// The server refused the frame: `what` and `place` name the collision as the server does.
    Clash { what: u8, place: u32 },
    /// The server is out of memory.
    NoMemory,
    /// The server's disk failed.
    StoreFault,
    /// The bytes aren't a reply that is expected here.
    BadReply,
    /// The client itself is out of memory.
    OutOfMemory,
}

impl fmt::Display for ReplyFault {
    ghost use Rattle.std.specs.Prelude.{Some};
    ghost use Rattle.client_replies.specs.Texts.{reply_fault_text};

    ghost output = { λ fault. Some (reply_fault_text fault) };

    fn fmt<W: fmt::Write>(&self, f: &mut fmt::Formatter<W>) -> fmt::Result {
        match self {
            ReplyFault::Clash { what: 1, place } => {
                write!(f, "the server holds the label of entry {place} from 0")
            }
            ReplyFault::Clash { what: 2, place } => {
                write!(f, "the server holds the label of addition {place} from 0")
            }
            ReplyFault::Clash { place, .. } => {
                write!(
                    f,
                    "the server holds revocation number {place} from 0 already, or lacks it"
                )
            }
            ReplyFault::NoMemory => f.write_str("the server is out of memory"),
            ReplyFault::StoreFault => f.write_str("the server's disk failed"),
            ReplyFault::BadReply => f.write_str("the server's reply is not one that is expected"),
            ReplyFault::OutOfMemory => f.write_str("out of memory"),
        }
    }
}

impl Error for ReplyFault {}

// Promise P54, also here; clauses: fault, told
/// The fault that a reply, all of these bytes, reports where it isn't one that is expected: what the server says
/// went wrong there, else `BadReply`.
pub fn fault_of(reply: &[u8]) -> ReplyFault
    ensures fault { IsFaultOf reply.now result }
    ensures told { (text : ReplyText) → IsReply text reply.now → result ≡ fault_told text }
    ensures store { result ≡ ReplyFault.StoreFault → reply.now ≡ reply_bytes StoreFault }
{
    match read_whole_reply(reply) {
        Some(read) => told_by(read),
        None => ReplyFault::BadReply,
    }
}

/// The fault that a reply reports.
fn told_by(reply: Reply<'_>) -> ReplyFault
    ensures { result ≡ fault_told (reply_view reply.entry) }
{
    match reply {
        Reply::Clash { what, place } => ReplyFault::Clash { what, place },
        Reply::NoMemory => ReplyFault::NoMemory,
        Reply::StoreFault => ReplyFault::StoreFault,
        Reply::Next(_)
        | Reply::Took(_)
        | Reply::Number(_)
        | Reply::Page { .. }
        | Reply::BadList
        | Reply::BadFrame(_)
        | Reply::OutOfPlace => ReplyFault::BadReply,
    }
}

impl From<AllocError> for ReplyFault {
    ghost use Rattle.client_replies.specs.declared.reply_fault.ReplyFault.TheVariants.{OutOfMemory};

    ghost from_gives = { λ _ fault. fault ≡ OutOfMemory };

    fn from(_e: AllocError) -> ReplyFault {
        ReplyFault::OutOfMemory
    }
}
