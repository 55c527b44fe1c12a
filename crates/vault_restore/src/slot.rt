ghost use Rattle.std.specs.Prelude.{◌≡◌, ◌<◌, ◌-◌, ◌^◌, ℕ, List, length};
ghost use Rattle.vault_restore.specs.RestoredLines.{is_forged_line, lines_of_slot};
ghost use Rattle.vault_restore.specs.Slots.{last_after, line_of};

/// What a slot was found to hold.
#[derive(Clone, Copy)]
pub(crate) enum Slot {
    /// A text whose tag is right; the buffer has it decrypted.
    Text,
    /// A text whose tag is wrong.
    Forged,
    /// Nothing: the text was dropped, or there was none.
    Empty,
}

impl Slot {
    /// How many texts it holds, 1 or 0; one whose tag is wrong counts.
    pub(crate) fn texts(self) -> u32
        ensures { (id : ℕ) (text : List ℕ) → result ≡ length (lines_of_slot (line_of self id text)) }
    {
        match self {
            Slot::Text => 1,
            Slot::Forged => 1,
            Slot::Empty => 0,
        }
    }

    /// The number above the last slot with a text, if this is slot `v` and that number was `last` before it.
    pub(crate) fn last(self, last: u32, v: u32) -> u32
        requires { v < 2 ^ 32 - 1 }
        ensures { (id : ℕ) (text : List ℕ) → result ≡ last_after (line_of self id text) last v }
    {
        match self {
            Slot::Text => v + 1,
            Slot::Forged => v + 1,
            Slot::Empty => last,
        }
    }

    /// Whether its tag is wrong.
    pub(crate) fn is_forged(self) -> bool
        ensures { (id : ℕ) (text : List ℕ) → result ≡ is_forged_line (line_of self id text) }
    {
        match self {
            Slot::Text => false,
            Slot::Forged => true,
            Slot::Empty => false,
        }
    }
}
