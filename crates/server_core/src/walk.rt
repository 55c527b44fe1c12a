ghost use Rattle.std.specs.Prelude.{◌≡◌, ◌≤◌, ◌<◌, ◌++◌, false, length, take, IfOk, OnErr, Some, None};
ghost use Rattle.keyed_fn.specs.KeyedFn.{keyed_fn};
ghost use Rattle.server_core.specs.Holds.{IsHeld};
ghost use Rattle.server_core.specs.SearchState.{coming};
ghost use Rattle.server_core.specs.Walk.{IsWalk, rest_of};

use crate::blocks::NoList;
use crate::pages::{check_from, fill_from};
use crate::spot::Spot;
use keyed_fn::Keyed;
use search_token::Token;
use server_tables::Tables;

/// A search under way: its token and where it stands, which is at the next identifier that it gives, or after all. It
/// holds no reference and no memory, and isn't shown, as the token is secret.
#[derive(Clone, Copy)]
pub struct Walk {
    token: Token,
    spot: Spot,
    within: usize,
    is_over: bool,
}

impl Walk {
    /// Whether no identifier is left.
    pub fn is_over(&self) -> bool
        ensures { result ≡ self.now.is_over }
    {
        self.is_over
    }
}

/// What a search gives first: so many identifiers, which stand at the front of a page, and the walk after them.
#[derive(Clone, Copy)]
pub struct First {
    pub count: usize,
    pub walk: Walk,
}

/// Opens the whole way of a search, and hands out what it gives first: as many identifiers as fit.
pub fn first_page<K: Keyed, T: Tables>(
    tables: &T,
    keyed: &K,
    token: &Token,
    page: &mut [u64],
) -> Result<First, NoList>
    requires { IsHeld (T.contents tables.now) }
    ensures first { IfOk result (λ first. coming (keyed_fn K.prf K.pad) token.now (T.contents tables.now) Spot.Cell 0 ≡ Some (take first.count page.new ++ rest_of (keyed_fn K.prf K.pad) (T.contents tables.now) first.walk)) }
    ensures walk { IfOk result (λ first. IsWalk (keyed_fn K.prf K.pad) (T.contents tables.now) first.walk) }
    ensures room { IfOk result (λ first. first.count ≤ length page.new) }
    ensures full { IfOk result (λ first. first.walk.is_over ≡ false → first.count ≡ length page.new) }
    ensures long { length page.new ≡ length page.old }
    ensures no_list { OnErr result (coming (keyed_fn K.prf K.pad) token.now (T.contents tables.now) Spot.Cell 0 ≡ None) }
{
    let filled = fill_from(tables, keyed, token, Spot::Cell, 0, page)?;
    if !filled.is_over {
        check_from(tables, keyed, token, filled.spot)?;
    }
    let walk = Walk {
        token: *token,
        spot: filled.spot,
        within: filled.within,
        is_over: filled.is_over,
    };
    let count = filled.count;
    Ok(First { count, walk })
}

/// Hands out what a walk gives next: as many identifiers as fit.
pub fn next_page<K: Keyed, T: Tables>(
    tables: &T,
    keyed: &K,
    walk: &mut Walk,
    page: &mut [u64],
) -> usize
    requires held { IsHeld (T.contents tables.now) }
    requires walk { IsWalk (keyed_fn K.prf K.pad) (T.contents tables.now) walk.old }
    ensures handed { rest_of (keyed_fn K.prf K.pad) (T.contents tables.now) walk.old ≡ take result page.new ++ rest_of (keyed_fn K.prf K.pad) (T.contents tables.now) walk.new }
    ensures walk { IsWalk (keyed_fn K.prf K.pad) (T.contents tables.now) walk.new }
    ensures room { result ≤ length page.new }
    ensures full { walk.new.is_over ≡ false → result ≡ length page.new }
    ensures long { length page.new ≡ length page.old }
{
    match fill_from(tables, keyed, &walk.token, walk.spot, walk.within, page) {
        Ok(filled) => {
            walk.spot = filled.spot;
            walk.within = filled.within;
            walk.is_over = filled.is_over;
            filled.count
        }
        // Not where the walk stands on these tables.
        Err(NoList) => 0,
    }
}
