ghost use Rattle.std.specs.Prelude.{◌≡◌, ◌<◌, [], ◌∷◌, ◌++◌, None, OnOk, IfSome, length, slice_get, Some};

use std::alloc::{AllocError, Global};
use std::marker::Model;

/// The bytes of all frames that were ever sent. A contract sees them, and beside them for how many more memory was taken.
#[derive(Drop)]
pub struct Sent {
    frames: Vec<Vec<u8>>,
}

impl Model for Sent {
    ghost use Rattle.sse_world.specs.Sent.{SentView};

    ghost Value = { SentView };

    ghost use Rattle.std.specs.Prelude.{◌-◌, map, vec_capacity, vec_len};

    ghost view = { λ s. record { frames = map (λ bytes. bytes.items) s.frames.items; room = vec_capacity s.frames - vec_len s.frames } };
}

impl Sent {
    /// Nothing was sent.
    pub fn new(alloc: Global) -> Sent
        ensures { result.frames ≡ [] }
    {
        Sent {
            frames: Vec::new(alloc),
        }
    }

    /// Takes memory for one frame more.
    pub fn reserve(&mut self) -> Result<(), AllocError>
        ensures room { OnOk result (0 < self.new.room) }
        ensures frames { self.new.frames ≡ self.old.frames }
    {
        self.frames.reserve(1)
    }

    /// Adds a frame for which there is room.
    pub fn push(&mut self, bytes: Vec<u8>)
        requires room { 0 < self.old.room }
        ensures frames { self.new.frames ≡ self.old.frames ++ bytes.items ∷ [] }
    {
        self.frames.push(bytes).unwrap();
    }

    /// How many there are.
    pub fn len(&self) -> usize
        ensures { result ≡ length self.now.frames }
    {
        self.frames.len()
    }

    /// The bytes of the frame at this place, if there is one.
    pub fn get(&self, place: usize) -> Option<&[u8]>
        ensures some { IfSome result (λ bytes. slice_get self.now.frames place ≡ Some bytes.now) }
        ensures none { result ≡ None → slice_get self.now.frames place ≡ None }
    {
        match self.frames.as_slice().get(place) {
            Some(frame) => Some(frame.as_slice()),
            None => None,
        }
    }
}
