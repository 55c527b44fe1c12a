ghost use Rattle.std.specs.Prelude.{◌≡◌, IfOk, IfSome};
ghost use Rattle.sse_frames.specs.ReadOutcomes.{front, seen_front, IsBehind};

use crate::fault::FrameFault;

/// The body in front of the bytes, by the four bytes of its length; `None` where it isn't whole yet.
#[tactic(auto, unfolding(crate::specs::Fields::number_at))]
pub(crate) fn front_body(bytes: &[u8], limit: u32) -> Result<Option<&[u8]>, FrameFault>
    ensures front { seen_front result ≡ front limit bytes.now }
    ensures behind { IfOk result (λ found. IfSome found (λ body. IsBehind bytes.now body.now)) }
{
    if bytes.len() < 4 {
        return Ok(None);
    }
    let (front, rest) = bytes.split_at(4);
    let len = u32::from_be_bytes([front[0], front[1], front[2], front[3]]);
    if len == 0 || len > limit {
        return Err(FrameFault::BadLength(len as u64));
    }
    if rest.len() < len as usize {
        return Ok(None);
    }
    let (body, _) = rest.split_at(len as usize);
    Ok(Some(body))
}
