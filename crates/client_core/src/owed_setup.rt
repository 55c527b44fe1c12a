ghost use Rattle.std.specs.Prelude.{◌≡◌, ◌+◌, ◌*◌, ◌≤◌, ◌<◌, ◌^◌, length, slice_index_or, take, vec_len};
ghost use Rattle.std.proofs.Props.{props};
ghost use Rattle.sse_frames.specs.Frames.{Rises, SetupEnd, frame_bytes, labels_of};
ghost use Rattle.sse_frames.specs.FrameViews.{entries_in};
ghost use Rattle.client_core.specs.Setup.{frames_in, index_frames};

use crate::setup_frames::{frame_at, frame_count};
use index_setup::Index;
use sse_frames::write_frame_into;

/// The frames of a setup that the server may lack: those of its index from `place` on, the first of them under the number
/// `next`. That one is written, at the front of the room.
#[derive(Drop)]
pub(crate) struct OwedSetup {
    pub(crate) index: Index,
    pub(crate) room: Vec<u8>,
    pub(crate) place: u32,
    pub(crate) next: u32,
    pub(crate) size: usize,
    ghost left: { place < frames_in index },
    ghost numbers: { next + frames_in index < 2 ^ 32 + place },
    ghost within: { size ≤ vec_len room },
    ghost written: { take size room.items ≡ frame_bytes (slice_index_or (index_frames index) place (λ n. SetupEnd n) next) },
    ghost rises: { Rises (labels_of (entries_in (1 + 8 * index.b) index.entries)) } by { Prim.hlevel props },
    ghost fits: { vec_len room ≡ 541709 },
    ghost counted: { length (index_frames index) ≡ frames_in index },
}

impl OwedSetup {
    ghost use Rattle.std.specs.Prelude.{◌∷◌, [], drop, length, IfSome, None};
    ghost use Rattle.client_core.specs.Owed.{setup_left};

    /// The frames of the index from this place on are left, the first of them under the number `next`. It takes no memory.
    pub(crate) fn at(index: Index, room: Vec<u8>, place: u32, next: u32) -> OwedSetup
        requires rises { Rises (labels_of (entries_in (1 + 8 * index.b) index.entries)) }
        requires fits { vec_len room ≡ 541709 }
        requires left { place < frames_in index }
        requires numbers { next + frames_in index < 2 ^ 32 + place }
        ensures index { result.index ≡ index }
        ensures place { result.place ≡ place }
        ensures next { result.next ≡ next }
    {
        let mut room = room;
        let size = write_frame_into(&frame_at(&index, place, next), &mut room);
        OwedSetup {
            index,
            room,
            place,
            next,
            size,
        }
    }

    /// The bytes of the first frame, with its four length bytes.
    pub(crate) fn frame(&self) -> &[u8]
        ensures { take 1 (setup_left self.now) ≡ result.now ∷ [] }
    {
        &self.room[..self.size]
    }

    /// The frames after the first; nothing where there are none. It takes no memory.
    pub(crate) fn behind_first(self) -> Option<OwedSetup>
        ensures left { IfSome result (λ setup. setup_left setup ≡ drop 1 (setup_left self)) }
        ensures next { IfSome result (λ setup. setup.next ≡ self.next + 1) }
        ensures some { IfSome result (λ setup. 1 ≤ length (setup_left setup)) }
        ensures last { result ≡ None → drop 1 (setup_left self) ≡ [] }
    {
        let OwedSetup {
            index,
            room,
            place,
            next,
            size: _,
        } = self;
        let place = place + 1;
        if place < frame_count(&index) {
            Some(OwedSetup::at(index, room, place, next + 1))
        } else {
            None
        }
    }
    /// The frames after so many, fewer than there are. It takes no memory.
    pub(crate) fn behind(self, count: u32) -> OwedSetup
        requires { count < length (setup_left self) }
        ensures left { setup_left result ≡ drop count (setup_left self) }
        ensures next { result.next ≡ self.next + count }
    {
        let OwedSetup {
            index,
            room,
            place,
            next,
            size: _,
        } = self;
        prove!(place < frame_count(&index));
        OwedSetup::at(index, room, place + count, next + count)
    }
}
