ghost use Rattle.std.specs.Prelude.{◌≡◌, ◌+◌, ◌<◌, ◌≤◌, ◌∷◌, [], drop, length, take, IfSome, None};
ghost use Rattle.sse_frames.specs.Frames.{IsNumber};
ghost use Rattle.client_core.specs.Owed.{number_of_first, owed_frames};

use crate::owed_setup::OwedSetup;
use crate::owed_update::OwedUpdate;
use crate::ready::Ready;
use std::marker::Model;

/// The state of a client with frames that the server may lack, and its state once they are acknowledged.
#[derive(Drop)]
pub struct Behind {
    pub(crate) ready: Ready,
    pub(crate) owed: Owed,
}

impl Model for Behind {
    ghost use Rattle.std.specs.Prelude.{◌≤◌, length};
    ghost use Rattle.client_core.specs.States.{BehindState};

    ghost Value = { BehindState };

    ghost use Rattle.client_core.specs.Owed.{number_of_first, owed_frames};

    ghost view = { λ b. record { ready = b.ready; frames = owed_frames b.owed; number = number_of_first b.owed } };

    ghost invariant = { λ b. 1 ≤ length (owed_frames b.owed) };
}

/// The frames that the server may lack, at least one: of a setup or of one update.
#[derive(Drop)]
pub(crate) enum Owed {
    Setup(OwedSetup),
    Update(OwedUpdate),
}

impl Owed {
    /// The bytes of the first frame, with its four length bytes.
    pub(crate) fn frame(&self) -> &[u8]
        ensures { take 1 (owed_frames self.now) ≡ result.now ∷ [] }
    {
        match self {
            Owed::Setup(setup) => setup.frame(),
            Owed::Update(update) => update.frame.as_slice(),
        }
    }

    /// The number of the first frame.
    pub(crate) fn number(&self) -> u32
        ensures first { result ≡ number_of_first self.now }
        ensures number { IsNumber result }
    {
        match self {
            Owed::Setup(setup) => setup.next,
            Owed::Update(update) => update.number,
        }
    }

    /// The frames after the first; nothing where there are none. It takes no memory.
    pub(crate) fn behind_first(self) -> Option<Owed>
        ensures left { IfSome result (λ owed. owed_frames owed ≡ drop 1 (owed_frames self)) }
        ensures next { IfSome result (λ owed. number_of_first owed ≡ number_of_first self + 1) }
        ensures some { IfSome result (λ owed. 1 ≤ length (owed_frames owed)) }
        ensures last { result ≡ None → drop 1 (owed_frames self) ≡ [] }
    {
        match self {
            Owed::Setup(setup) => match setup.behind_first() {
                Some(left) => Some(Owed::Setup(left)),
                None => None,
            },
            Owed::Update(_) => None,
        }
    }
    /// The frames after so many, fewer than there are. It takes no memory.
    pub(crate) fn behind(self, count: u32) -> Owed
        requires { count < length (owed_frames self) }
        ensures left { owed_frames result ≡ drop count (owed_frames self) }
        ensures next { number_of_first result ≡ number_of_first self + count }
    {
        match self {
            Owed::Setup(setup) => Owed::Setup(setup.behind(count)),
            Owed::Update(update) => Owed::Update(update),
        }
    }
}
