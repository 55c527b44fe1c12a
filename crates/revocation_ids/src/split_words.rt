ghost use Rattle.std.specs.Prelude.{◌≡◌, ◌<◌, ◌≤◌, ◌^◌, All, IfOk, length};
ghost use Rattle.client_registry.specs.IdNumber.{id_number};
ghost use Rattle.client_registry.specs.Registered.{known_words};
ghost use Rattle.revocation_ids.specs.Places.{fresh_places, listed_places};

use crate::numbered_word::NumberedWord;
use crate::parts::Split;
use client_registry::{DocId, Registry};
use std::alloc::{AllocError, Global};

// Promise P64 (caller): A document's words are split into new and listed pairs, each with its position and number, in document order.
//   clauses: fresh, listed, fresh_numbers, listed_numbers; assumes: earlier calls
/// Parts the words of these numbers into those whose pair with the identifier is new and those whose pair is listed.
pub fn split(
    alloc: Global,
    registry: &Registry,
    numbers: &[u32],
    id: DocId,
) -> Result<Split, AllocError>
    requires within { All (λ n. n < length (known_words registry.now)) numbers.now }
    requires few { length numbers.now ≤ 2 ^ 32 }
    ensures fresh { IfOk result (λ split. split.fresh.items ≡ fresh_places registry.now (id_number id) numbers.now) }
    ensures listed { IfOk result (λ split. split.listed.items ≡ listed_places registry.now (id_number id) numbers.now) }
    ensures fresh_numbers { IfOk result (λ split. All (λ place. place.number < length (known_words registry.now)) split.fresh.items) }
    ensures listed_numbers { IfOk result (λ split. All (λ place. place.number < length (known_words registry.now)) split.listed.items) }
{
    let mut fresh = Vec::new(alloc);
    let mut listed = Vec::new(alloc);
    let entry = registry.place_of(id);
    for (i, number) in numbers.iter().enumerate() {
        let place = NumberedWord {
            position: i as u32,
            number: *number,
        };
        if registry.is_pair_at(*number, id, entry) {
            listed.push(place)?;
        } else {
            fresh.push(place)?;
        }
    }
    Ok(Split { fresh, listed })
}
