ghost use Rattle.std.specs.Prelude.{◌≡◌, IfSome, IsSomeAnd};
ghost use Rattle.sse_frames.specs.Frames.{InGrammar, IsFrame};
ghost use Rattle.sse_frames.specs.FrameViews.{frame_view};
ghost use Rattle.sse_frames.specs.Sizes.{HasSizes};

use sse_frames::{Frame, read_frame};

/// The frame that these bytes are.
pub fn whole_frame(bytes: &[u8]) -> Option<Frame<'_>>
    requires { IsFrame bytes.now }
    ensures frame { (sent : IsFrame bytes.now) → IsSomeAnd result (λ frame. frame_view frame ≡ sent.frame) }
    ensures grammar { IfSome result (λ frame. InGrammar (frame_view frame)) }
    ensures sizes { IfSome result (λ frame. HasSizes frame) }
{
    match read_frame(bytes) {
        Ok(Some((frame, _))) => Some(frame),
        // Not of bytes that are a frame.
        Ok(None) => None,
        Err(_) => None,
    }
}
