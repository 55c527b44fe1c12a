ghost use Rattle.std.specs.Prelude.{◌≡◌, ◌≢◌, [], None, Some, option_copied, OnOk, OnErr};

use crate::name::{Name, key_of};
use std::alloc::{AllocError, Global};
use std::collections::BTreeMap;
use std::marker::Model;

/// A finite table of values by name.
#[derive(Drop)]
pub struct Sheet {
    values: BTreeMap<[u64; 4], Vec<u8>>,
    alloc: Global,
}

impl Model for Sheet {
    ghost use Rattle.leakage_names.specs.Sheets.{Values, values_of};

    ghost Value = { Values };

    ghost view = { values_of };
}

impl Sheet {
    ghost use Rattle.leakage_names.specs.Sheets.{value_at};

    // Promise P39 (caller): A table of values by name is exact: a name has the value last set, and every other name keeps its own.
    //   clauses: ensures
    /// The table with no value. It takes no memory.
    pub fn new(alloc: Global) -> Sheet
        ensures { (name : Name) → value_at result name ≡ None }
    {
        Sheet {
            values: BTreeMap::new(alloc),
            alloc,
        }
    }

    // Promise P39, also here; clauses: given, others, err
    /// Gives a name this value, in place of the one that it had. Without memory the table is as before.
    pub fn set(&mut self, name: Name, value: &[u8]) -> Result<(), AllocError>
        ensures given { OnOk result (value_at self.new name ≡ Some value.now) }
        ensures others { OnOk result ((other : Name) → other ≢ name → value_at self.new other ≡ value_at self.old other) }
        ensures err { OnErr result (self.new ≡ self.old) }
    {
        let copy = Vec::from_slice(self.alloc, value)?;
        self.values.insert(key_of(&name), copy)?;
        Ok(())
    }

    // Promise P39, also here; clauses: ensures
    /// The value of a name, if it has one.
    pub fn get(&self, name: &Name) -> Option<&[u8]>
        ensures { option_copied result ≡ value_at self.now name.now }
    {
        match self.values.get(&key_of(name)) {
            Some(value) => Some(value.as_slice()),
            None => None,
        }
    }
}
