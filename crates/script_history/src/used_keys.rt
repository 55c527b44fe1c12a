ghost use Rattle.std.specs.Prelude.{◌≡◌, IfOk, bytes_eq, position};
ghost use Rattle.keyed_fn.specs.KeyedFn.{keyed_fn};
ghost use Rattle.def_script_meaning.specs.Outcome.{opened};
ghost use Rattle.script_history.specs.UsedKeys.{Knows, mark_when, marks_known};

use keyed_fn::Keyed;
use std::alloc::{AllocError, Global};
use word_keys::MasterKey;

/// The keys of a script's epochs so far.
#[derive(Drop)]
pub enum UsedKeys {
    /// Their marks: a new key is compared with them.
    Marked(Vec<[u8; 16]>),
    /// A new key isn't compared with those before.
    Unmarked,
}

impl UsedKeys {
    /// The key of the first epoch, where new keys are compared with those before, or aren't.
    pub(crate) fn first<K: Keyed>(
        alloc: Global,
        keyed: &K,
        key: &MasterKey,
        compared: bool,
    ) -> Result<UsedKeys, AllocError>
        ensures { IfOk result (λ used. Knows (keyed_fn K.prf K.pad) (marks_known used) (opened (mark_when compared (keyed_fn K.prf K.pad)) key.now)) }
    {
        if !compared {
            return Ok(UsedKeys::Unmarked);
        }
        let mark = key.prepare(keyed).mark();
        Ok(UsedKeys::Marked(vec![in alloc; mark]?))
    }
}

/// The first epoch, from 0, whose key has this mark.
pub(crate) fn epoch_of(marks: &[[u8; 16]], mark: &[u8; 16]) -> Option<usize>
    ensures { result ≡ position (bytes_eq mark.now) marks.now }
{
    marks.iter().position(|own| is_same(mark, own))
}

/// Whether two marks are equal.
fn is_same(mark: &[u8; 16], own: &[u8; 16]) -> bool
    ensures { result ≡ bytes_eq mark.now own.now }
{
    mark == own
}
