ghost use Rattle.std.specs.Prelude.{◌≡◌, ◌<◌, ◌++◌, All, length, take, IfOk};
ghost use Rattle.keyed_fn.specs.KeyedFn.{keyed_fn};
ghost use Rattle.server_core.specs.Walk.{contents_of, rest_of, HasPage};

use keyed_fn::Keyed;
use server_core::Walk;
use server_tables::Tables;
use sse_server::Store;
use std::alloc::{AllocError, Global};

/// All identifiers of a search: those at the front of the page, and those that the walk gives.
pub fn gather<K: Keyed, T: Tables>(
    alloc: Global,
    store: &Store<T>,
    keyed: &K,
    count: usize,
    walk: Walk,
    page: &mut [u64],
) -> Result<Vec<u64>, AllocError>
    requires page { HasPage (keyed_fn K.prf K.pad) (contents_of store.now.state) count walk page.old }
    requires some { 0 < length page.old }
    ensures all { IfOk result (λ ids. ids.items ≡ take count page.old ++ rest_of (keyed_fn K.prf K.pad) (contents_of store.now.state) walk) }
    ensures ids { IfOk result (λ ids. All (λ id. 0 < id) ids.items) }
    ensures long { length page.new ≡ length page.old }
{
    let mut ids = Vec::new(alloc);
    ids.extend_from_slice(&page[..count])?;
    let mut rest = walk;
    'pages: while !rest.is_over() {
        let more = store.fill(keyed, &mut rest, page);
        ids.extend_from_slice(&page[..more])?;
    }
    Ok(ids)
}
