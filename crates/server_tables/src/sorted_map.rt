ghost use Rattle.std.specs.Prelude.{◌≡◌, MatchResult};
ghost use Rattle.std.specs.FinMap as map;
ghost use Rattle.server_tables.specs.Slots.{AreRising, IsAt, GoesTo};

use crate::{LabelMap, Missing, TableFault};
use std::alloc::{AllocError, Global};
use std::marker::Model;

/// A label and its value.
#[derive(Clone, Copy)]
pub struct Slot<V> {
    pub label: [u8; 16],
    pub value: V,
}

/// A map from labels as one vector by rising label: it is found by halves, and a label that comes after the
/// others moves none of them.
#[derive(Drop)]
pub struct SortedMap<V> {
    slots: Vec<Slot<V>>,
}

impl<V> Model for SortedMap<V> {
    ghost use Rattle.std.specs.Prelude.{◌-◌, ℕ, vec_len, vec_capacity};
    ghost use Rattle.std.specs.Coded.{coded×, coded_ℕ};
    ghost use Rattle.server_tables.specs.Labelled.{Labelled, labelled_code};

    ghost Value = { Labelled V × ℕ };

    ghost coded = { coded× (labelled_code V.code) coded_ℕ };

    ghost use Rattle.server_tables.specs.Slots.{map_of, AreRising};

    ghost view = { λ m. (map_of m.slots.items, vec_capacity m.slots - vec_len m.slots) };

    ghost invariant = { λ m. AreRising m.slots.items };
}

impl<V: Copy> SortedMap<V> {
    /// No labels. Takes no memory.
    pub(crate) fn new(alloc: Global) -> Self
        ensures { result.0 ≡ map.empty }
    {
        SortedMap {
            slots: Vec::new(alloc),
        }
    }
}

impl<V: Copy> LabelMap for SortedMap<V> {
    type Value = V;

    ghost entries = { λ m. m.0 };

    ghost free = { λ m. m.1 };

    fn len(&self) -> usize {
        self.slots.len()
    }

    fn get(&self, label: &[u8; 16]) -> Option<V> {
        match place(&self.slots, label) {
            Ok(at) => Some(self.slots[at].value),
            Err(_) => None,
        }
    }

    fn insert(&mut self, label: &[u8; 16], value: V) -> Result<(), TableFault> {
        match place(&self.slots, label) {
            Ok(_) => Err(TableFault::Taken),
            Err(at) => {
                let slot = Slot {
                    label: *label,
                    value,
                };
                self.slots.insert(at, slot)?;
                Ok(())
            }
        }
    }

    fn remove(&mut self, label: &[u8; 16]) -> Result<(), Missing> {
        match place(&self.slots, label) {
            Ok(at) => {
                self.slots.remove(at);
                Ok(())
            }
            Err(_) => Err(Missing),
        }
    }

    fn reserve(&mut self, additional: usize) -> Result<(), AllocError> {
        self.slots.reserve(additional)
    }

    fn clear(&mut self) {
        self.slots.clear();
    }
}

/// Where the label is among slots that rise, or where it would go.
fn place<V>(slots: &[Slot<V>], label: &[u8; 16]) -> Result<usize, usize>
    requires { AreRising slots.now }
    ensures { MatchResult result (IsAt slots.now label.now) (GoesTo slots.now label.now) }
{
    let label_of = |slot: &Slot<V>| -> [u8; 16]
        ensures { result ≡ slot.now.label }
    { slot.label };
    slots.binary_search_by_key(label, label_of)
}
