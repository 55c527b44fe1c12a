ghost use Rattle.std.specs.Prelude.{◌≡◌, ◌++◌, ℕ, List, OnOk, Some, bytes_eq};
ghost use Rattle.std.specs.List.{list_any};
ghost use Rattle.client_registry.specs.Run.{Epochs};
ghost use Rattle.def_duel.specs.Choices as choices;
ghost use Rattle.keyed_fn.specs.KeyFormulas.{mark_of as mark};
ghost use Rattle.keyed_fn.specs.KeyedFn.{keyed_fn};
ghost use Rattle.sse_game.specs.Passing.{marks_by, marks_in};
ghost use Rattle.sse_game.specs.Views.{choice_view};

use crate::choice::Choice;
use keyed_fn::Keyed;
use std::alloc::AllocError;
use word_keys::MasterKey;

/// The mark of this key.
pub(crate) fn mark_of<K: Keyed>(keyed: &K, key: &MasterKey) -> [u8; 16]
    ensures { result ≡ mark (keyed_fn K.prf K.pad) key.now }
{
    key.prepare(keyed).mark()
}

/// Whether the key of a renewal has a mark that is none of these, which are those of a history; other commands have no key.
pub(crate) fn has_new_mark<K: Keyed>(keyed: &K, marks: &[[u8; 16]], choice: &Choice) -> bool
    ensures { (key : List ℕ) (es : Epochs) → marks.now ≡ marks_in (keyed_fn K.prf K.pad) key es → result ≡ choices.has_new_mark (keyed_fn K.prf K.pad) key (Some es) (choice_view choice.now) }
{
    match choice {
        Choice::Renew(key) => {
            let mark = mark_of(keyed, &MasterKey::new(*key));
            !is_among(marks, &mark)
        }
        Choice::SetUp(_) | Choice::Do(_) => true,
    }
}

/// Whether a mark is one of these.
fn is_among(marks: &[[u8; 16]], mark: &[u8; 16]) -> bool
    ensures { result ≡ list_any (bytes_eq mark.now) marks.now }
{
    marks.iter().any(|own| is_same(mark, own))
}

/// Whether two marks are equal.
fn is_same(mark: &[u8; 16], own: &[u8; 16]) -> bool
    ensures { result ≡ bytes_eq mark.now own.now }
{
    mark == own
}

/// Adds the mark of the key of a renewal; other commands have no key.
pub(crate) fn add_mark<K: Keyed>(
    keyed: &K,
    marks: &mut Vec<[u8; 16]>,
    choice: &Choice,
) -> Result<(), AllocError>
    ensures { OnOk result (marks.new.items ≡ marks.old.items ++ marks_by (keyed_fn K.prf K.pad) (choice_view choice.now)) }
{
    match choice {
        Choice::Renew(key) => {
            marks.push(mark_of(keyed, &MasterKey::new(*key)))?;
            Ok(())
        }
        Choice::SetUp(_) | Choice::Do(_) => Ok(()),
    }
}
