ghost use Rattle.std.specs.Prelude.{◌≡◌, IfOk, IfErr, IsOkAnd};
ghost use Rattle.sse_frames.specs.Frames.{InGrammar, frame_bytes};
ghost use Rattle.sse_frames.specs.ReadOutcomes.{frame_outcome};
ghost use Rattle.sse_frames.specs.FrameViews.{frame_view};
ghost use Rattle.sse_frames.specs.Sizes.{HasSizes};
ghost use Rattle.sse_link.specs.BadFrames.{bad_reason};
ghost use Rattle.sse_frames.specs.Frames.{IsFrame};

use sse_frames::{Frame, FrameFault, read_frame};

/// The frame that all of the bytes are, or the reason of the BadFrame that answers them: 1 for a length that
/// is out of range or isn't that of the bytes, 2 for an unknown kind, 3 for another field.
pub fn whole_frame(bytes: &[u8]) -> Result<Frame<'_>, u8>
    ensures grammar { IfOk result (λ frame. InGrammar (frame_view frame)) }
    ensures spelled { IfOk result (λ frame. bytes.now ≡ frame_bytes (frame_view frame)) }
    ensures sizes { IfOk result (λ frame. HasSizes frame) }
    ensures only { (sent : IsFrame bytes.now) → IsOkAnd result (λ frame. frame_view frame ≡ sent.frame) }
    ensures reason { IfErr result (λ reason. reason ≡ bad_reason (frame_outcome bytes.now)) }
{
    match read_frame(bytes) {
        Ok(Some((frame, n))) => {
            if n == bytes.len() {
                return Ok(frame);
            }
            Err(1)
        }
        Ok(None) => Err(1),
        Err(FrameFault::BadLength(_)) => Err(1),
        Err(FrameFault::BadKind(_)) => Err(2),
        Err(FrameFault::BadBody(_)) => Err(3),
    }
}
