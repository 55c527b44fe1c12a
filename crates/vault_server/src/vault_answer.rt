ghost use Rattle.std.specs.Prelude.{◌≡◌};
ghost use Rattle.vault_server.specs.VaultAnswers.{fault_answer};

use sse_outside::DeviceFault;

/// What the vault answers to the bytes of a frame, without the bytes that it holds.
#[derive(Clone, Copy)]
pub enum VaultAnswer {
    /// The update of this number was taken, and every crash leaves it.
    Took(u32),
    /// What stands in this slot, or that nothing does.
    Holds([u8; 16]),
    /// The number of the next update: to a question for it, and to an update of another number.
    Next(u32),
    /// To a put whose slot isn't empty, and to a drop whose slot is.
    Clash,
    /// To an update that would be taken: out of memory, and it wasn't taken.
    NoMemory,
    /// To an update that would be taken: the disk failed, now or at an earlier one, and it wasn't taken.
    StoreFault,
    /// The bytes are no frame.
    BadFrame,
}

impl From<DeviceFault> for VaultAnswer {
    ghost from_gives = { λ fault answer. answer ≡ fault_answer fault };

    fn from(fault: DeviceFault) -> VaultAnswer {
        match fault {
            DeviceFault::Failed => VaultAnswer::StoreFault,
            DeviceFault::NoMemory => VaultAnswer::NoMemory,
        }
    }
}
