ghost use Rattle.std.specs.Prelude.{◌≡◌};
ghost use Rattle.server_core.specs.State.{is_filling, is_ready};

/// How far a server has come with its setup.
#[derive(Clone, Copy)]
pub enum Stage {
    /// Nothing was taken yet.
    Empty,
    /// The setup's first frame was taken, and its last one wasn't.
    Filling,
    /// The setup is whole: additions, deletions and searches are in place.
    Ready,
}

impl Stage {
    /// Whether the setup has begun and isn't whole.
    pub fn is_filling(self) -> bool
        ensures { result ≡ is_filling self }
    {
        matches!(self, Stage::Filling)
    }

    /// Whether the setup is whole.
    pub fn is_ready(self) -> bool
        ensures { result ≡ is_ready self }
    {
        matches!(self, Stage::Ready)
    }
}
