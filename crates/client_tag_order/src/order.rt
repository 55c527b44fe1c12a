ghost use Rattle.std.specs.Prelude.{◌≡◌, List, ℕ, map, vec_len, IfOk};
ghost use Rattle.client_registry.specs.FirstClash as clashes;
ghost use Rattle.sse_frames.specs.Order.{by_bytes};
ghost use Rattle.client_tag_order.specs.Tagged.{least_second, tagged_from, IsOrderOf};

use crate::tagged::Tagged;
use std::alloc::AllocError;

/// The tagged by rising tag; those with equal tags stay in their order. Error: `NoMemory` where there is no memory for the
/// order.
pub fn by_tag(tagged: Vec<Tagged>) -> Result<Vec<Tagged>, AllocError>
    ensures sorted { IfOk result (λ sorted. sorted.items ≡ by_bytes (λ e. e.tag) tagged.items) }
    ensures order { (tags : List (List ℕ)) → tagged.items ≡ tagged_from 0 tags → IfOk result (λ sorted. IsOrderOf tags sorted.items) }
    ensures tags { (tags : List (List ℕ)) → tagged.items ≡ tagged_from 0 tags → IfOk result (λ sorted. map (λ e. e.tag) sorted.items ≡ by_bytes (λ tag. tag) tags) }
    ensures count { IfOk result (λ sorted. vec_len sorted ≡ vec_len tagged) }
{
    let mut sorted = tagged;
    sorted.sort_by_key(
        |e|
            ensures { result ≡ e.now.tag }
        { e.tag },
    )?;
    Ok(sorted)
}

// Promise P66, also here; clauses: ensures
/// The positions of two equal tags: of several such pairs the one with the least second position, then the least
/// first. Sorted, equal tags are neighbours, so it takes no memory.
pub fn first_clash(sorted: &[Tagged]) -> Option<(u32, u32)>
    ensures { (tags : List (List ℕ)) → IsOrderOf tags sorted.now → result ≡ clashes.first_clash tags }
{
    let mut found = None;
    for k in 1..sorted.len() {
        let before = sorted[k - 1];
        let here = sorted[k];
        if before.tag == here.tag {
            found = earlier(found, (before.position, here.position));
        }
    }
    found
}

/// Of two clashes the one with the lesser second position, the found one where they are equal.
fn earlier(found: Option<(u32, u32)>, here: (u32, u32)) -> Option<(u32, u32)>
    ensures { result ≡ least_second found here }
{
    match found {
        Some(clash) => {
            if here.1 < clash.1 {
                Some(here)
            } else {
                Some(clash)
            }
        }
        None => Some(here),
    }
}
