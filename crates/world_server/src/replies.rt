use sse_frames::Reply;

/// What a server replied to a frame, as it is kept until the client takes it.
#[derive(Drop)]
pub enum Replies {
    /// One reply, which is no page.
    Single(Reply<'static>),
    /// The identifiers that a search found: a page for each 8,192 of them, and one for none.
    Found(Vec<u64>),
}
