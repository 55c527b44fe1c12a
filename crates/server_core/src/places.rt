ghost use Rattle.std.specs.Prelude.{◌≡◌, ◌≤◌, [], take, IfOk, OnErr, MatchOption, Some, None};
ghost use Rattle.keyed_fn.specs.KeyedFn.{keyed_fn};
ghost use Rattle.std.specs.FinMap as map;
ghost use Rattle.server_core.specs.Holds.{IsHeld};
ghost use Rattle.server_core.specs.SearchState.{ids_from, InRange};
ghost use Rattle.server_core.specs.OpenedStep.{IsKept, IsPlace};

use crate::blocks::NoList;
use crate::group::{Group, MOST, numbers_at, open_cell};
use crate::spot::Spot;
use keyed_fn::Keyed;
use search_token::{PlusLabels, Token};
use server_tables::Tables;

/// The identifiers of one place are so many, and the search goes on after it.
#[derive(Clone, Copy)]
pub struct IdsRead {
    pub count: usize,
    pub behind: Spot,
}

/// The identifiers at the next place, to the front of `ids`; `None` after the last one.
pub fn next<K: Keyed, T: Tables>(
    tables: &T,
    keyed: &K,
    token: &Token,
    labels: &Option<PlusLabels<K>>,
    group: &mut Group,
    spot: Spot,
    ids: &mut [u64; MOST],
) -> Result<Option<IdsRead>, NoList>
    requires held { IsHeld (T.contents tables.now) }
    requires labels { MatchOption labels.now (map.len (T.contents tables.now).additions ≡ 0) (λ key. key ≡ token.now.plus_label_key) }
    requires range { InRange spot }
    requires kept { IsKept (keyed_fn K.prf K.pad) token.now (T.contents tables.now) group.old }
    ensures kept { IsKept (keyed_fn K.prf K.pad) token.now (T.contents tables.now) group.new }
    ensures place { IfOk result (λ next. MatchOption next (ids_from (keyed_fn K.prf K.pad) token.now (T.contents tables.now) spot ≡ Some []) (λ place. (place.count ≤ 256) × IsPlace (keyed_fn K.prf K.pad) token.now (T.contents tables.now) spot (take place.count ids.new) place.behind)) }
    ensures no_list { OnErr result (ids_from (keyed_fn K.prf K.pad) token.now (T.contents tables.now) spot ≡ None) }
{
    match spot {
        Spot::Cell => Ok(Some(next_cell(tables, keyed, token, group, ids)?)),
        Spot::Blocks { top, at, number } => Ok(Some(next_block(
            tables, keyed, token, group, top, at, number, ids,
        )?)),
        Spot::Added { c } => next_added(tables, keyed, token, labels, c, ids),
    }
}

/// The identifiers of the cell, or none where it has pointers.
fn next_cell<K: Keyed, T: Tables>(
    tables: &T,
    keyed: &K,
    token: &Token,
    group: &mut Group,
    ids: &mut [u64; MOST],
) -> Result<IdsRead, NoList>
    requires held { IsHeld (T.contents tables.now) }
    requires kept { IsKept (keyed_fn K.prf K.pad) token.now (T.contents tables.now) group.old }
    ensures kept { IsKept (keyed_fn K.prf K.pad) token.now (T.contents tables.now) group.new }
    ensures place { IfOk result (λ place. IsPlace (keyed_fn K.prf K.pad) token.now (T.contents tables.now) Spot.Cell (take place.count ids.new) place.behind) }
    ensures few { IfOk result (λ place. place.count ≤ 256) }
    ensures no_list { OnErr result (ids_from (keyed_fn K.prf K.pad) token.now (T.contents tables.now) Spot.Cell ≡ None) }
{
    let Some(cell) = open_cell(tables, keyed, token, ids)? else {
        return Ok(IdsRead {
            count: 0,
            behind: Spot::Added { c: 0 },
        });
    };
    if cell.kind == 0 {
        return Ok(IdsRead {
            count: cell.count,
            behind: Spot::Added { c: 0 },
        });
    }
    group.load(tables, keyed, token, cell, ids, 0)?;
    let number = if cell.kind == 1 { 0 } else { cell.count as u32 };
    Ok(IdsRead {
        count: 0,
        behind: Spot::Blocks {
            top: 0,
            at: 0,
            number,
        },
    })
}

/// The identifiers of the block at a pointer, or none behind a group's last pointer.
fn next_block<K: Keyed, T: Tables>(
    tables: &T,
    keyed: &K,
    token: &Token,
    group: &mut Group,
    top: u32,
    at: u32,
    number: u32,
    ids: &mut [u64; MOST],
) -> Result<IdsRead, NoList>
    requires held { IsHeld (T.contents tables.now) }
    requires range { InRange (Spot.Blocks top at number) }
    requires kept { IsKept (keyed_fn K.prf K.pad) token.now (T.contents tables.now) group.old }
    ensures kept { IsKept (keyed_fn K.prf K.pad) token.now (T.contents tables.now) group.new }
    ensures place { IfOk result (λ place. IsPlace (keyed_fn K.prf K.pad) token.now (T.contents tables.now) (Spot.Blocks top at number) (take place.count ids.new) place.behind) }
    ensures few { IfOk result (λ place. place.count ≤ 256) }
    ensures no_list { OnErr result (ids_from (keyed_fn K.prf K.pad) token.now (T.contents tables.now) (Spot.Blocks top at number) ≡ None) }
{
    group.open(tables, keyed, token, top)?;
    let place = at as usize;
    if place < group.count {
        let count = numbers_at(tables, keyed, token, number, group.pointers[place], ids)?;
        return Ok(IdsRead {
            count,
            behind: Spot::Blocks {
                top,
                at: at + 1,
                number: number + 1,
            },
        });
    }
    if group.is_last {
        return Ok(IdsRead {
            count: 0,
            behind: Spot::Added { c: 0 },
        });
    }
    Ok(IdsRead {
        count: 0,
        behind: Spot::Blocks {
            top: top + 1,
            at: at - group.count as u32,
            number,
        },
    })
}

/// The identifier of an addition; `None` where its label is missing, or there is no addition.
fn next_added<K: Keyed, T: Tables>(
    tables: &T,
    keyed: &K,
    token: &Token,
    labels: &Option<PlusLabels<K>>,
    c: u64,
    ids: &mut [u64; MOST],
) -> Result<Option<IdsRead>, NoList>
    requires labels { MatchOption labels.now (map.len (T.contents tables.now).additions ≡ 0) (λ key. key ≡ token.now.plus_label_key) }
    ensures place { IfOk result (λ next. MatchOption next (ids_from (keyed_fn K.prf K.pad) token.now (T.contents tables.now) (Spot.Added c) ≡ Some []) (λ place. (place.count ≤ 256) × IsPlace (keyed_fn K.prf K.pad) token.now (T.contents tables.now) (Spot.Added c) (take place.count ids.new) place.behind)) }
    ensures no_list { OnErr result (ids_from (keyed_fn K.prf K.pad) token.now (T.contents tables.now) (Spot.Added c) ≡ None) }
{
    match labels {
        Some(labels) => added_at(tables, keyed, token, labels, c, ids),
        None => Ok(None),
    }
}

/// The identifier of an addition; `None` where its label is missing.
fn added_at<K: Keyed, T: Tables>(
    tables: &T,
    keyed: &K,
    token: &Token,
    labels: &PlusLabels<K>,
    c: u64,
    ids: &mut [u64; MOST],
) -> Result<Option<IdsRead>, NoList>
    requires labels { labels.now ≡ token.now.plus_label_key }
    ensures place { IfOk result (λ next. MatchOption next (ids_from (keyed_fn K.prf K.pad) token.now (T.contents tables.now) (Spot.Added c) ≡ Some []) (λ place. (place.count ≤ 256) × IsPlace (keyed_fn K.prf K.pad) token.now (T.contents tables.now) (Spot.Added c) (take place.count ids.new) place.behind)) }
    ensures no_list { OnErr result (ids_from (keyed_fn K.prf K.pad) token.now (T.contents tables.now) (Spot.Added c) ≡ None) }
{
    if c >= tables.plus_len() as u64 {
        return Ok(None);
    }
    let Some(mut sealed) = tables.plus(&labels.label(keyed, c)) else {
        return Ok(None);
    };
    token.open_plus(keyed, c, &mut sealed);
    let id = u64::from_be_bytes(sealed);
    if id == 0 {
        return Err(NoList);
    }
    ids[0] = id;
    Ok(Some(IdsRead {
        count: 1,
        behind: Spot::Added { c: c + 1 },
    }))
}
