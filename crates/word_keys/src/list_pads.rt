ghost use Rattle.std.specs.Prelude.{◌≡◌, ◌<◌, ◌^◌};
ghost use Rattle.word_keys.specs.PadName.{cell_name, name_after};

use crate::pad_slot::PadSlot;
use std::marker::Model;

/// The pads of a word's list, one after another: the pad of the cell, then those of blocks 0, 1, 2, ..
#[derive(Drop)]
pub struct ListPads {
    key: [u8; 32],
    given: u64,
}

impl Model for ListPads {
    ghost use Rattle.word_keys.specs.PadName.{PadName};

    ghost Value = { PadName };

    ghost view = { λ p. record { key = p.key; number = p.given } };
}

impl ListPads {
    /// Begins with the pad of the cell, number 0, under the key of the list's pads.
    pub(crate) fn begin(key: [u8; 32]) -> ListPads
        ensures { result ≡ cell_name key }
    {
        ListPads { key, given: 0 }
    }

    // Promise P97, also here; clauses: slot, after
    /// The next pad. Fewer than 2^22 were given.
    pub fn next(&mut self) -> PadSlot
        requires { self.old.number < 2 ^ 22 }
        ensures slot { result ≡ self.old }
        ensures after { self.new ≡ name_after self.old }
    {
        let slot = PadSlot::new(self.key, self.given);
        self.given += 1;
        slot
    }
}
