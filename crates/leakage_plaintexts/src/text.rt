ghost use Rattle.std.specs.Prelude.{◌≡◌, IfOk, replicate};

use std::alloc::{AllocError, Global};
use std::marker::Model;

/// A plaintext, seen as the list of its bytes. It is made once and moved from then on: a setup's cells are most of what it holds.
#[derive(Drop)]
pub struct Text {
    bytes: Vec<u8>,
}

impl Model for Text {
    ghost use Rattle.std.specs.Prelude.{List, ℕ};

    ghost Value = { List ℕ };

    ghost view = { λ t. t.bytes.items };
}

impl Text {
    /// The text of these bytes. It takes no memory.
    pub(crate) fn of(bytes: Vec<u8>) -> Text
        ensures { result ≡ bytes.items }
    {
        Text { bytes }
    }

    /// So many zeros.
    pub(crate) fn zeros(alloc: Global, count: usize) -> Result<Text, AllocError>
        ensures { IfOk result (λ text. text ≡ replicate count 0) }
    {
        let bytes = vec![in alloc; 0u8; count]?;
        Ok(Text::of(bytes))
    }

    /// The bytes.
    pub fn as_slice(&self) -> &[u8]
        ensures { result.now ≡ self.now }
    {
        self.bytes.as_slice()
    }
}
