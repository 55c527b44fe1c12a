ghost use Rattle.std.specs.Prelude.{◌≡◌, None};
ghost use Rattle.client_registry.specs.Acceptance.{size_refusal};
ghost use Rattle.index_setup.specs.SizeOf.{IsSizeOf, setup_sized};

use client_registry::{Size, Sizes, size_of};
use leakage_history::History;

/// The size of the index of a history's setup.
pub(crate) fn setup_size(history: &History) -> Size
    requires { size_refusal history.now.setup ≡ None }
    ensures size { IsSizeOf history.now.setup.documents result }
    ensures setup { setup_sized history.now.setup.documents result ≡ history.now.setup }
{
    let b = u64::from(history.b());
    let big = u64::from(history.big());
    let pad = u64::from(history.pad());
    match size_of(history.docs(), Sizes { b, big, pad }) {
        Ok(size) => size,
        Err(_) => unreachable!(),
    }
}
