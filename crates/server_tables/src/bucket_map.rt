ghost use Rattle.std.specs.Prelude.{◌≡◌};
ghost use Rattle.std.specs.FinMap as map;

use crate::key::Key;
use crate::{LabelMap, Missing, TableFault};
use std::alloc::{AllocError, Global};
use std::collections::HashMap;
use std::hash::BuildHasher;
use std::marker::Model;

/// A map from labels in std's hash table: its buckets are found by a hash of the label, and double when they are
/// full. What a look-up or a new label costs doesn't grow with the number of labels, unless labels were chosen that
/// have one hash.
#[derive(Drop)]
pub struct BucketMap<V, S: BuildHasher + Drop> {
    values: HashMap<Key, V, S>,
}

impl<V, S: BuildHasher + Drop> Model for BucketMap<V, S> {
    ghost use Rattle.std.specs.Prelude.{ℕ};
    ghost use Rattle.std.specs.Coded.{coded×, coded_ℕ};
    ghost use Rattle.server_tables.specs.Labelled.{Labelled, labelled_code};

    ghost Value = { Labelled V × ℕ };

    ghost coded = { coded× (labelled_code V.code) coded_ℕ };

    ghost use Rattle.std.specs.HashMap.{spare};
    ghost use Rattle.server_tables.specs.Buckets.{map_of};

    ghost view = { λ m. (map_of m.values.entries, spare m.values) };
}

impl<V: Copy, S: BuildHasher + Drop> BucketMap<V, S> {
    /// No labels, to be hashed so. Takes no memory.
    pub(crate) fn new(alloc: Global, hashes: S) -> Self
        ensures { result.0 ≡ map.empty }
    {
        BucketMap {
            values: HashMap::with_hasher(alloc, hashes),
        }
    }
}

impl<V: Copy, S: BuildHasher + Drop> LabelMap for BucketMap<V, S> {
    type Value = V;

    ghost entries = { λ m. m.0 };

    ghost free = { λ m. m.1 };

    fn len(&self) -> usize {
        self.values.len()
    }

    fn get(&self, label: &[u8; 16]) -> Option<V> {
        self.values.get(&Key(*label)).copied()
    }

    fn insert(&mut self, label: &[u8; 16], value: V) -> Result<(), TableFault> {
        if self.get(label).is_some() {
            return Err(TableFault::Taken);
        }
        self.values.insert(Key(*label), value)?;
        Ok(())
    }

    fn remove(&mut self, label: &[u8; 16]) -> Result<(), Missing> {
        let Some(_) = self.values.remove(&Key(*label)) else {
            return Err(Missing);
        };
        Ok(())
    }

    fn reserve(&mut self, additional: usize) -> Result<(), AllocError> {
        self.values.reserve(additional)
    }

    fn clear(&mut self) {
        self.values.clear();
    }
}
