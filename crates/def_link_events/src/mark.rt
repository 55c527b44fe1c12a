/// What a link knows of how the server answered a frame.
#[derive(Clone, Copy)]
pub enum Mark {
    /// Nothing.
    Unknown,
    /// By its step.
    Stepped,
    /// It was out of memory, and stayed as it was.
    LackedMemory,
    /// Its disk failed, now or at an earlier frame, and it stayed as it was.
    StoreFailed,
}
