ghost use Rattle.sse_frames.specs.Frames.{IsNumber};

/// The one frame of an addition or a deletion, which the server may lack, and the number that is in it.
#[derive(Drop)]
pub(crate) struct OwedUpdate {
    pub(crate) frame: Vec<u8>,
    pub(crate) number: u32,
    ghost numbered: { IsNumber number },
}
