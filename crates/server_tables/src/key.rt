ghost use Rattle.std.specs.Prelude.{◌≡◌, [], ◌∷◌};

use std::hash::{Hash, Hasher};

/// A label as a key of a hash map. All its bytes are hashed at once, where an array is hashed byte by byte.
#[derive(Clone, Copy, PartialEq, Eq)]
pub struct Key(pub [u8; 16]);

impl Hash for Key {
    ghost use Rattle.std.specs.Prelude.{[], ◌∷◌};
    ghost use Rattle.server_tables.specs.Key.{same_bytes};

    ghost hash_input = { λ key. key.0 ∷ [] };

    ghost respects_eq = { λ x y same. same_bytes x y same };

    fn hash<H: Hasher>(&self, state: &mut H) {
        state.write(&self.0);
    }
}
