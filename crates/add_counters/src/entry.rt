ghost use Rattle.std.specs.Prelude.{◌≡◌, ◌-◌, ◌^◌, ◌↔◌, IfOk};
ghost use Rattle.client_registry.specs.IdNumber.{id_number};
ghost use Rattle.keyed_fn.specs.KeyedFn.{keyed_fn};
ghost use Rattle.add_counters.specs.NewEntry.{entry_text, new_entry};

use client_registry::DocId;
use keyed_fn::Keyed;
use std::error::Error;
use std::fmt;
use word_keys::{PlusKeys, seal};

/// The word has had 2^32-1 additions, so there is no counter left.
#[derive(Clone, Copy, Debug, PartialEq, Eq)]
pub struct CounterFull;

impl fmt::Display for CounterFull {
    ghost use Rattle.std.specs.Prelude.{Some, codes};

    ghost output = { λ _. Some (codes "a word has at most 4294967295 additions, and this one had them") };

    fn fmt<W: fmt::Write>(&self, f: &mut fmt::Formatter<W>) -> fmt::Result {
        f.write_str("a word has at most 4294967295 additions, and this one had them")
    }
}

impl Error for CounterFull {}

/// A new entry: the label of a word's addition, and the identifier under the addition's pad.
#[derive(Clone, Copy, Debug, PartialEq, Eq)]
pub struct Entry {
    /// The 16-byte label.
    pub label: [u8; 16],
    /// The identifier, 8 bytes, high byte first, encrypted.
    pub sealed: [u8; 8],
}

// Promise P63 (caller): An addition's entry is the one the key formulas give; there is none if and only if the counter is 2^32-1.
//   clauses: entry, full; assumes: own keys
/// The entry of a word's next addition, from its keys and its counter, the number of its additions so far. It takes no
/// memory. Error: `CounterFull` exactly where the counter is 2^32-1.
pub fn next_entry<K: Keyed>(
    keyed: &K,
    keys: &PlusKeys,
    counter: u32,
    id: DocId,
) -> Result<Entry, CounterFull>
    ensures entry { IfOk result (λ entry. entry_text entry ≡ new_entry (keyed_fn K.prf K.pad) keys.now counter (id_number id)) }
    ensures full { (result ≡ Err (record {})) ↔ (counter ≡ 2 ^ 32 - 1) }
{
    if counter == u32::MAX {
        return Err(CounterFull);
    }
    let label = keys.label(keyed, counter);
    let mut sealed = id.get().to_be_bytes();
    seal(keys.slot(counter), keyed, &mut sealed);
    Ok(Entry { label, sealed })
}
