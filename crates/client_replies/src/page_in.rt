ghost use Rattle.std.specs.Prelude.{◌≡◌, ℕ, Bool, List, false, None, IfSome};
ghost use Rattle.sse_frames.specs.Replies.{Page};
ghost use Rattle.sse_frames.specs.FrameViews.{reply_view};
ghost use Rattle.sse_frames.specs.ReadOutcomes.{IsReply};
ghost use Rattle.client_replies.specs.Pages.{IsPageIn, is_page};

use sse_frames::{Reply, read_whole_reply};

/// The page that all of these bytes are: whether it is the last, and its identifiers.
pub(crate) fn page_in(reply: &[u8]) -> Option<(bool, &[u8])>
    ensures found { IfSome result (λ page. IsPageIn reply.now page.0 page.1.now) }
    ensures none { result ≡ None → (last : Bool) (ids : List ℕ) → IsReply (Page last ids) reply.now → ⊥ }
{
    match read_whole_reply(reply) {
        Some(read) => page_of(read),
        None => None,
    }
}

/// Whether the page is the last, and its identifiers, where the reply is one.
fn page_of(reply: Reply<'_>) -> Option<(bool, &[u8])>
    ensures found { IfSome result (λ page. reply.entry ≡ Reply.Page page.0 page.1) }
    ensures none { result ≡ None → is_page (reply_view reply.entry) ≡ false }
{
    match reply {
        Reply::Page { last, ids } => Some((last, ids)),
        Reply::Next(_)
        | Reply::Took(_)
        | Reply::Number(_)
        | Reply::Clash { .. }
        | Reply::BadList
        | Reply::NoMemory
        | Reply::StoreFault
        | Reply::BadFrame(_)
        | Reply::OutOfPlace => None,
    }
}
