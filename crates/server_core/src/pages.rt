ghost use Rattle.std.specs.Prelude.{◌≡◌, ◌≢◌, ◌≤◌, ◌<◌, ◌++◌, [], true, false, not, length, take, IfOk, OnOk, OnErr, MatchOption, Some, None, IsSome, slice_index};
ghost use Rattle.std.specs.FinMap as map;
ghost use Rattle.std.specs.FinSet as set;
ghost use Rattle.keyed_fn.specs.KeyedFn.{keyed_fn};
ghost use Rattle.keyed_fn.specs.KeyFormulas.{revocation};
ghost use Rattle.two_level.specs.Opened.{joined};
ghost use Rattle.server_core.specs.Holds.{IsHeld};
ghost use Rattle.server_core.specs.Search.{unrevoked};
ghost use Rattle.server_core.specs.SearchState.{ids_from, coming, InRange};

use crate::blocks::NoList;
use crate::group::{Group, MOST};
use crate::places::next;
use crate::spot::Spot;
use keyed_fn::Keyed;
use search_token::{PlusLabels, Revocations, Token};
use server_tables::Tables;

/// Whether an identifier is shown: its revocation number isn't in the tables. `numbers` is `None` only where the tables
/// have none.
fn is_shown<K: Keyed, T: Tables>(
    tables: &T,
    keyed: &K,
    token: &Token,
    numbers: &Option<Revocations<K>>,
    id: u64,
) -> bool
    requires { MatchOption numbers.now ((T.contents tables.now).revoked ≡ set.empty) (λ key. key ≡ token.now.revocation_key) }
    ensures { result ≡ not (set.contains (T.contents tables.now).revoked (revocation (keyed_fn K.prf K.pad) token.now.revocation_key id)) }
{
    match numbers {
        None => true,
        Some(numbers) => !tables.is_revoked(&numbers.number(keyed, id)),
    }
}

/// Hands out the shown ones of these identifiers after the first `done` of `out`, up to one that finds no room: how
/// many were passed, and how many `out` has.
fn hand_out<K: Keyed, T: Tables>(
    tables: &T,
    keyed: &K,
    token: &Token,
    numbers: &Option<Revocations<K>>,
    ids: &[u64],
    out: &mut [u64],
    done: usize,
) -> (usize, usize)
    requires numbers { MatchOption numbers.now ((T.contents tables.now).revoked ≡ set.empty) (λ key. key ≡ token.now.revocation_key) }
    requires done { done ≤ length out.old }
    ensures handed { take result.1 out.new ≡ take done out.old ++ unrevoked (keyed_fn K.prf K.pad) token.now (set.contains (T.contents tables.now).revoked) (take result.0 ids.now) }
    ensures passed { result.0 ≤ length ids.now }
    ensures long { length out.new ≡ length out.old }
    ensures room { result.1 ≤ length out.old }
    ensures full { result.0 < length ids.now → (result.1 ≡ length out.old) × (set.contains (T.contents tables.now).revoked (revocation (keyed_fn K.prf K.pad) token.now.revocation_key (slice_index ids.now result.0)) ≡ false) }
{
    let mut passed = 0;
    let mut filled = done;
    while passed < ids.len() {
        let id = ids[passed];
        if is_shown(tables, keyed, token, numbers, id) {
            if filled >= out.len() {
                return (passed, filled);
            }
            out[filled] = id;
            filled += 1;
        }
        passed += 1;
    }
    (passed, filled)
}

/// What was handed out, and where the search stands: at the next identifier that is shown, or after all.
#[derive(Clone, Copy)]
pub struct Filled {
    pub count: usize,
    pub spot: Spot,
    pub within: usize,
    pub is_over: bool,
}

/// Hands out what a search gives from this spot, where so many identifiers were passed: as many as fit.
pub fn fill_from<K: Keyed, T: Tables>(
    tables: &T,
    keyed: &K,
    token: &Token,
    from: Spot,
    within: usize,
    out: &mut [u64],
) -> Result<Filled, NoList>
    requires held { IsHeld (T.contents tables.now) }
    requires range { InRange from }
    ensures handed { IfOk result (λ filled. coming (keyed_fn K.prf K.pad) token.now (T.contents tables.now) from within ≡ joined (Some (take filled.count out.new)) (coming (keyed_fn K.prf K.pad) token.now (T.contents tables.now) filled.spot filled.within)) }
    ensures room { IfOk result (λ filled. filled.count ≤ length out.new) }
    ensures range { IfOk result (λ filled. InRange filled.spot) }
    ensures over { IfOk result (λ filled. filled.is_over ≡ true → coming (keyed_fn K.prf K.pad) token.now (T.contents tables.now) filled.spot filled.within ≡ Some []) }
    ensures more { IfOk result (λ filled. filled.is_over ≡ false → (filled.count ≡ length out.new) × (coming (keyed_fn K.prf K.pad) token.now (T.contents tables.now) filled.spot filled.within ≢ Some [])) }
    ensures long { length out.new ≡ length out.old }
    ensures no_list { OnErr result (coming (keyed_fn K.prf K.pad) token.now (T.contents tables.now) from within ≡ None) }
{
    let labels = plus_labels(tables, keyed, token);
    let numbers = revocations(tables, keyed, token);
    let mut group = Group::new();
    let mut ids = [0u64; MOST];
    let mut spot = from;
    let mut skip = within;
    let mut count = 0;
    while let Some(place) = next(tables, keyed, token, &labels, &mut group, spot, &mut ids)? {
        let start = if skip < place.count {
            skip
        } else {
            place.count
        };
        let (passed, filled) = hand_out(
            tables,
            keyed,
            token,
            &numbers,
            &ids[start..place.count],
            out,
            count,
        );
        count = filled;
        if start + passed < place.count {
            return Ok(Filled {
                count,
                spot,
                within: start + passed,
                is_over: false,
            });
        }
        skip -= start;
        spot = place.behind;
    }
    Ok(Filled {
        count,
        spot,
        within: skip,
        is_over: true,
    })
}

/// Opens what stands from this spot on, to its end.
pub fn check_from<K: Keyed, T: Tables>(
    tables: &T,
    keyed: &K,
    token: &Token,
    from: Spot,
) -> Result<(), NoList>
    requires held { IsHeld (T.contents tables.now) }
    requires range { InRange from }
    ensures list { OnOk result (IsSome (ids_from (keyed_fn K.prf K.pad) token.now (T.contents tables.now) from)) }
    ensures no_list { OnErr result (ids_from (keyed_fn K.prf K.pad) token.now (T.contents tables.now) from ≡ None) }
{
    let labels = plus_labels(tables, keyed, token);
    let mut group = Group::new();
    let mut ids = [0u64; MOST];
    let mut spot = from;
    while let Some(place) = next(tables, keyed, token, &labels, &mut group, spot, &mut ids)? {
        spot = place.behind;
    }
    Ok(())
}

/// The labels of the word's additions, prepared; `None` where the tables have none.
fn plus_labels<K: Keyed, T: Tables>(tables: &T, keyed: &K, token: &Token) -> Option<PlusLabels<K>>
    ensures { MatchOption result (map.len (T.contents tables.now).additions ≡ 0) (λ key. key ≡ token.now.plus_label_key) }
{
    if tables.plus_len() == 0 {
        None
    } else {
        Some(token.plus_labels(keyed))
    }
}

/// The word's revocation numbers, prepared; `None` where the tables have none.
fn revocations<K: Keyed, T: Tables>(tables: &T, keyed: &K, token: &Token) -> Option<Revocations<K>>
    ensures { MatchOption result ((T.contents tables.now).revoked ≡ set.empty) (λ key. key ≡ token.now.revocation_key) }
{
    if tables.revokes_none() {
        None
    } else {
        Some(token.revocations(keyed))
    }
}
