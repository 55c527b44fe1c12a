ghost use Rattle.std.specs.Prelude.{◌≡◌, ◌<◌, ◌^◌, Contains, length, get_or, IfNone, IfSome};
ghost use Rattle.std.specs.List.Sorted.{IsStrictlyIncreasing};
ghost use Rattle.sse_owners.specs.Rising.{IsNotRisingAt};

/// The place, counted from 0, of the first number that isn't above the one before it; none if they rise.
pub(crate) fn first_not_rising(numbers: &[u64]) -> Option<usize>
    ensures rising { IfNone result (IsStrictlyIncreasing numbers.now) }
    ensures not_rising { IfSome result (IsNotRisingAt numbers.now) }
{
    for place in 1..numbers.len() {
        if numbers[place] <= numbers[place - 1] {
            return Some(place);
        }
    }
    None
}

/// The place of a number among numbers that rise; none if it isn't one of them.
pub(crate) fn place_of(numbers: &[u64], owner: u64) -> Option<usize>
    requires { IsStrictlyIncreasing numbers.now }
    ensures found { IfSome result (λ place. (place < length numbers.now) × (get_or numbers.now place 0 ≡ owner)) }
    ensures known { IfSome result (λ _. Contains numbers.now owner) }
    ensures none { IfNone result (Contains numbers.now owner → ⊥) }
{
    match numbers.binary_search(&owner) {
        Ok(place) => Some(place),
        Err(_) => None,
    }
}

/// The number at a place.
pub(crate) fn number_at(numbers: &[u64], place: usize) -> u64
    requires { place < length numbers.now }
    ensures number { result ≡ get_or numbers.now place 0 }
    ensures short { result < 2 ^ 64 }
{
    numbers[place]
}
