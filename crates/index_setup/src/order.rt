ghost use Rattle.std.specs.Prelude.{◌≡◌, ◌<◌, ◌≤◌, ◌^◌, ℕ, List, All, length, IfOk};
ghost use Rattle.sse_model.specs.Positions.{ranks_of};
ghost use Rattle.client_tag_order.specs.Tagged.{IsOrderOf};

use client_tag_order::Tagged;
use std::alloc::{AllocError, Global};

/// The place of each position among the sorted. Error: where there is no memory.
pub fn ranks(alloc: Global, sorted: &[Tagged]) -> Result<Vec<u32>, AllocError>
    requires most { length sorted.now ≤ 2 ^ 32 }
    requires positions { All (λ e. e.position < length sorted.now) sorted.now }
    ensures { IfOk result (λ ranks. (tags : List (List ℕ)) → IsOrderOf tags sorted.now → ranks.items ≡ ranks_of tags) }
{
    let mut ranks = vec![in alloc; 0u32; sorted.len()]?;
    for (k, e) in sorted.iter().enumerate() {
        ranks[e.position as usize] = k as u32;
    }
    Ok(ranks)
}
