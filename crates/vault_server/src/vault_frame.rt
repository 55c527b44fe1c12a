ghost use Rattle.std.specs.Prelude.{◌≡◌};
ghost use Rattle.vault_server.specs.VaultFrames.{vault_number};
ghost use Rattle.vault_server.specs.VaultViews.{frame_view};

/// A frame of the vault.
#[derive(Clone, Copy)]
pub enum VaultFrame<'a> {
    /// Keeps an encrypted text with its tag in a slot, as update number `n`.
    Put {
        n: u32,
        slot: [u8; 16],
        tag: [u8; 32],
        sealed: &'a [u8],
    },
    /// Empties a slot, as update number `n`.
    Drop {
        n: u32,
        slot: [u8; 16],
    },
    /// Asks for what stands in a slot.
    Fetch {
        slot: [u8; 16],
    },
    /// Asks for the number of the next update.
    Ask,
}

impl VaultFrame<'_> {
    /// The number of an update; none for a question.
    pub fn number(&self) -> Option<u32>
        ensures { result ≡ vault_number (frame_view self.now) }
    {
        match self {
            VaultFrame::Put { n, .. } => Some(*n),
            VaultFrame::Drop { n, .. } => Some(*n),
            VaultFrame::Fetch { .. } => None,
            VaultFrame::Ask => None,
        }
    }
}
