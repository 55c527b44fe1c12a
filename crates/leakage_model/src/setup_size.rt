ghost use Rattle.std.specs.Prelude.{◌≡◌, None};
ghost use Rattle.client_registry.specs.Acceptance.{blocks_of, padded_blocks, padded_words, size_refusal};

use client_registry::{Size, Sizes, size_of};
use leakage_history::History;

/// The size of the index of a history's setup.
pub(crate) fn size_of_setup(history: &History) -> Size
    requires { size_refusal history.now.setup ≡ None }
    ensures shape { result.shape ≡ history.now.setup.shape }
    ensures blocks { result.blocks ≡ blocks_of history.now.setup }
    ensures padded_words { result.padded_words ≡ padded_words history.now.setup }
    ensures padded_blocks { result.padded_blocks ≡ padded_blocks history.now.setup }
{
    let b = u64::from(history.b());
    let big = u64::from(history.big());
    let pad = u64::from(history.pad());
    match size_of(history.docs(), Sizes { b, big, pad }) {
        Ok(size) => size,
        Err(_) => unreachable!(),
    }
}
