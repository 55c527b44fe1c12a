ghost use Rattle.std.specs.Prelude.{◌≡◌, ◌+◌, ◌≤◌, [], ◌∷◌, ◌++◌, length};
ghost use Rattle.sse_frames.specs.Frames.{be16, be32};

use crate::put::{put, put_u16, put_u32};
use std::marker::Model;

/// The most bytes of a head: a SetupBegin is nothing else.
const ROOM: usize = 21;

/// What stands before the lists of a frame or a reply: the length of its body, the kind byte, and the fields that are
/// one number each. A contract sees its bytes.
#[derive(Drop)]
pub(crate) struct Head {
    bytes: [u8; ROOM],
    len: usize,
}

impl Model for Head {
    ghost use Rattle.std.specs.Prelude.{ℕ, ◌≤◌, List, take};

    ghost Value = { List ℕ };

    ghost view = { λ h. take h.len h.bytes };

    ghost invariant = { λ h. h.len ≤ 21 };
}

impl Head {
    /// The length of a body, and its kind.
    pub(crate) fn new(body: u32, kind: u8) -> Head
        ensures { result ≡ be32 body ++ kind ∷ [] }
    {
        let head = Head {
            bytes: [0; ROOM],
            len: 0,
        };
        head.then_u32(body).then_u8(kind)
    }

    /// One byte more.
    pub(crate) fn then_u8(mut self, n: u8) -> Head
        requires { length self + 1 ≤ 21 }
        ensures { result ≡ self ++ n ∷ [] }
    {
        let place = self.len;
        self.len = put(&mut self.bytes, place, &[n]);
        self
    }

    /// A number of two bytes more.
    pub(crate) fn then_u16(mut self, n: u16) -> Head
        requires { length self + 2 ≤ 21 }
        ensures { result ≡ self ++ be16 n }
    {
        let place = self.len;
        put_u16(&mut self.bytes, place, n);
        self.len = place + 2;
        self
    }

    /// A number of four bytes more.
    pub(crate) fn then_u32(mut self, n: u32) -> Head
        requires { length self + 4 ≤ 21 }
        ensures { result ≡ self ++ be32 n }
    {
        let place = self.len;
        put_u32(&mut self.bytes, place, n);
        self.len = place + 4;
        self
    }

    /// Its bytes.
    pub(crate) fn as_slice(&self) -> &[u8]
        ensures { result.now ≡ self.now }
    {
        &self.bytes[..self.len]
    }
}
