ghost use Rattle.std.specs.Prelude.{◌≡◌, ◌↔◌, ℕ, ◌+◌, ◌<◌, ◌≤◌, IsTrue, IsOk, OnOk, OnErr, Err, None};
ghost use Rattle.std.specs.FinMap as map;
ghost use Rattle.server_tables.specs.Labelled.{Labelled};

use crate::{Missing, TableFault};
use std::alloc::AllocError;

/// A map from labels of 16 bytes, each to a value that is copied.
pub trait LabelMap: Drop {
    type Value: Copy;

    /// The values by their labels.
    ghost entries: { Self → Labelled Self.Value };

    /// For how many more labels there is memory.
    ghost free: { Self → ℕ };

    /// How many labels there are.
    fn len(&self) -> usize
        ensures { result ≡ map.len (entries self.now) };

    /// The value of a label.
    fn get(&self, label: &[u8; 16]) -> Option<Self::Value>
        ensures { result ≡ map.get (entries self.now) label.now };

    /// Adds a label with its value.
    ///
    /// Errors: `Taken` where the label is there, else `NoMemory` where there is no memory, which never comes
    /// where `free` isn't 0. The map is then as before.
    fn insert(&mut self, label: &[u8; 16], value: Self::Value) -> Result<(), TableFault>
        ensures ok { OnOk result (entries self.new ≡ map.insert (entries self.old) label.now value) }
        ensures err { OnErr result (entries self.new ≡ entries self.old) }
        ensures taken { (result ≡ Err TableFault.Taken) ↔ IsTrue (map.contains_key (entries self.old) label.now) }
        ensures has_room { 0 < free self.old → map.get (entries self.old) label.now ≡ None → IsOk result }
        ensures spent { OnOk result (free self.old ≤ free self.new + 1) }
        ensures not_spent { OnErr result (free self.old ≤ free self.new) };

    /// Removes a label. Takes no memory.
    ///
    /// Errors: where the label isn't there. The map is then as before.
    fn remove(&mut self, label: &[u8; 16]) -> Result<(), Missing>
        ensures ok { OnOk result (entries self.new ≡ map.remove (entries self.old) label.now) }
        ensures err { OnErr result (entries self.new ≡ entries self.old) }
        ensures there { IsOk result ↔ IsTrue (map.contains_key (entries self.old) label.now) }
        ensures not_spent { free self.old ≤ free self.new };

    /// Takes the memory for so many more labels, where it isn't there yet. The labels stay, also after an error.
    fn reserve(&mut self, additional: usize) -> Result<(), AllocError>
        ensures kept { entries self.new ≡ entries self.old }
        ensures ok { OnOk result (additional ≤ free self.new) }
        ensures has_room { additional ≤ free self.old → IsOk result }
        ensures not_spent { free self.old ≤ free self.new };

    /// Removes all labels. Takes no memory, and keeps what was taken.
    fn clear(&mut self)
        ensures entries { entries self.new ≡ map.empty }
        ensures not_spent { free self.old ≤ free self.new };
}
