//! Finds the first command at which two leakages differ: where a server that knows both would see a difference. It
//! depends on `leakage_frames` for the items that it compares, and on `def_comparison` for what a first difference
//! is.
//! Proved: `first_difference` gives that command, or none exactly if the two leakages mean the same.
//! Side: client.
#![tactic(auto)]

ghost use Rattle.std.specs.Prelude.{◌≡◌, None, map, IfSome};
ghost use Rattle.leakage_frames.specs.Views.{leak_view};
ghost use Rattle.def_comparison.specs.FirstDifference.{IsFirstDifference};

use leakage_frames::{Leak, same_leak};

// Promise P47 (caller): A program gets the first command at which two leakages differ, the end of the shorter one included.
//   clauses: same, first; assumes: sized table; checks: .ci/twin; not: That a server can tell apart histories that leak otherwise: with another order of words it can't.
/// The first command at which two leakages differ, the setup being command 0; a command of the one against the end of the other
/// is a difference too. `None` where they are the same. It takes no memory.
pub fn first_difference(left: &[Leak], right: &[Leak]) -> Option<usize>
    ensures same { result ≡ None → map leak_view left.now ≡ map leak_view right.now }
    ensures first { IfSome result (λ k. IsFirstDifference k (map leak_view left.now) (map leak_view right.now)) }
{
    let shared = left.len().min(right.len());
    for k in 0..shared {
        if !same_leak(&left[k], &right[k]) {
            return Some(k);
        }
    }
    if left.len() == right.len() {
        None
    } else {
        Some(shared)
    }
}
