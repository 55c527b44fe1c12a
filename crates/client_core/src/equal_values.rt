ghost use Rattle.std.specs.Prelude.{◌≡◌, ℕ, List, length};
ghost use Rattle.std.specs.Option.{option_or};
ghost use Rattle.client_tag_order.specs.Tagged.{IsOrderOf};
ghost use Rattle.client_core.specs.UpdateFaults.{equal_at, label_fault, number_fault};

use crate::command_fault::CommandFault;
use client_tag_order::{Tagged, first_clash};
use revocation_ids::NumberedWord;

// Promise P66 (inside): Once an update's labels or numbers are sorted, the first equal two are found without memory, and are its fault.
//   clauses: ensures; not: That a plan comes to the test: memory may run out before it.
/// The fault of an addition's equal values: of two labels, else of two revocation numbers. Both are sorted, each with its place
/// among these words. It takes no memory.
pub(crate) fn add_clash(
    labels: &[Tagged],
    fresh: &[NumberedWord],
    numbers: &[Tagged],
    listed: &[NumberedWord],
) -> Option<CommandFault>
    requires labels { (tags : List (List ℕ)) × IsOrderOf tags labels.now × (length tags ≡ length fresh.now) }
    requires numbers { (tags : List (List ℕ)) × IsOrderOf tags numbers.now × (length tags ≡ length listed.now) }
    ensures { (tags values : List (List ℕ)) → IsOrderOf tags labels.now → IsOrderOf values numbers.now → result ≡ option_or (label_fault fresh.now tags) (number_fault listed.now values) }
{
    match label_clash(labels, fresh) {
        Some(fault) => Some(fault),
        None => number_clash(numbers, listed),
    }
}

// Promise P66, also here; clauses: ensures
/// The fault of two equal labels, which are sorted, each with its place among these words. It takes no memory.
fn label_clash(sorted: &[Tagged], places: &[NumberedWord]) -> Option<CommandFault>
    requires { (labels : List (List ℕ)) × IsOrderOf labels sorted.now × (length labels ≡ length places.now) }
    ensures { (labels : List (List ℕ)) → IsOrderOf labels sorted.now → result ≡ label_fault places.now labels }
{
    match equal_positions(sorted, places) {
        Some((first, second)) => Some(CommandFault::LabelClash { first, second }),
        None => None,
    }
}

// Promise P66, also here; clauses: ensures
/// The same for revocation numbers.
pub(crate) fn number_clash(sorted: &[Tagged], places: &[NumberedWord]) -> Option<CommandFault>
    requires { (numbers : List (List ℕ)) × IsOrderOf numbers sorted.now × (length numbers ≡ length places.now) }
    ensures { (numbers : List (List ℕ)) → IsOrderOf numbers sorted.now → result ≡ number_fault places.now numbers }
{
    match equal_positions(sorted, places) {
        Some((first, second)) => Some(CommandFault::NumberClash { first, second }),
        None => None,
    }
}

/// The positions of the first two words with equal values. The values are sorted, each with its place among these words.
fn equal_positions(sorted: &[Tagged], places: &[NumberedWord]) -> Option<(u32, u32)>
    requires { (values : List (List ℕ)) × IsOrderOf values sorted.now × (length values ≡ length places.now) }
    ensures { (values : List (List ℕ)) → IsOrderOf values sorted.now → result ≡ equal_at places.now values }
{
    match first_clash(sorted) {
        Some((first, second)) => Some((
            places[first as usize].position,
            places[second as usize].position,
        )),
        None => None,
    }
}
