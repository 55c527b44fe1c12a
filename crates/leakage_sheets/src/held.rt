ghost use Rattle.std.specs.Prelude.{◌≡◌, IfOk};
ghost use Rattle.keyed_fn.specs.KeyedFn.{keyed_fn};
ghost use Rattle.leakage_sheets.specs.ByKeys.{value_by_keys};

use crate::dummies::dummy_value;
use crate::own_keys::OwnKeys;
use crate::words::word_value;
use keyed_fn::Keyed;
use leakage_names::Name;
use sse_frames::Items;
use std::alloc::{AllocError, Global};
use two_level::Shape;
use word_keys::DummyKey;

/// All keys of a history's values: those of its words, by number, and those of its dummies; and the parameters that tell how long a
/// pad is.
#[derive(Drop)]
pub(crate) struct HeldKeys {
    pub(crate) words: Items<OwnKeys>,
    pub(crate) dummies: DummyKey,
    pub(crate) shape: Shape,
}

impl HeldKeys {
    /// The value of a name.
    pub(crate) fn value<K: Keyed>(
        &self,
        alloc: Global,
        keyed: &K,
        name: &Name,
    ) -> Result<Vec<u8>, AllocError>
        ensures { IfOk result (λ value. value.items ≡ value_by_keys (keyed_fn K.prf K.pad) self.now.shape self.now.words self.now.dummies name.now) }
    {
        match self.words.as_slice().get(name.word as usize) {
            Some(own) => word_value(alloc, keyed, own, self.shape, name.kind, name.number),
            None => dummy_value(
                alloc,
                keyed,
                &self.dummies,
                self.shape,
                name.kind,
                name.number,
            ),
        }
    }
}
