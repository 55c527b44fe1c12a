ghost use Rattle.std.specs.Prelude.{◌++◌, ◌∷◌, [], IfOk, List, option_map};
ghost use Rattle.def_duel.specs.Turns.{Turn, turn};
ghost use Rattle.sse_game.specs.Views.{pair_view};

use crate::choice::Pair;
use sse_frames::Items;
use std::alloc::{AllocError, Global};

/// An adversary, who chooses the next command of each of two histories after looking at all that passed so far.
///
/// If it is observable, it tells the turns that it can have had: what it was shown and what it answered, in order.
pub trait Chooser {
    ghost tells: { Self → List Turn → Type 0 };

    /// The next pair, or none to end the duel. It is shown the bytes of each frame and each reply, the greeting first.
    ///
    /// Error: where there is no memory.
    fn next(&mut self, alloc: Global, seen: &Items<Items<u8>>) -> Result<Option<Pair>, AllocError>
        ensures told { (past : List Turn) → tells self.old past → IfOk result (λ answer. tells self.new (past ++ turn seen.now (option_map pair_view answer) ∷ [])) };
}
