ghost use Rattle.std.specs.Prelude.{◌≡◌, ◌++◌, OnErr, OnOk};
ghost use Rattle.vault_server.specs.VaultFrames.{InVault, vault_bytes};
ghost use Rattle.vault_server.specs.VaultViews.{frame_view};

use crate::VaultFrame;
use std::alloc::AllocError;

// Promise P198 (caller): A written frame or reply of the vault is its bytes; without memory nothing is appended.
//   clauses: bytes, err; assumes: sizes in bounds
/// Appends the bytes of a frame: the length of its body, and the body. Without memory nothing is appended.
pub fn write_vault_frame(frame: &VaultFrame<'_>, out: &mut Vec<u8>) -> Result<(), AllocError>
    requires { InVault (frame_view frame.now) }
    ensures bytes { OnOk result (out.new.items ≡ out.old.items ++ vault_bytes (frame_view frame.now)) }
    ensures err { OnErr result (out.new.items ≡ out.old.items) }
{
    match *frame {
        VaultFrame::Put {
            n,
            slot,
            tag,
            sealed,
        } => {
            let size = 53 + sealed.len() as u32;
            out.reserve(57 + sealed.len())?;
            out.extend_from_slice(&size.to_be_bytes())?;
            out.push(0x41)?;
            out.extend_from_slice(&n.to_be_bytes())?;
            out.extend_from_slice(slot.as_slice())?;
            out.extend_from_slice(tag.as_slice())?;
            out.extend_from_slice(sealed)
        }
        VaultFrame::Drop { n, slot } => {
            out.reserve(25)?;
            out.extend_from_slice(&[0, 0, 0, 21, 0x42])?;
            out.extend_from_slice(&n.to_be_bytes())?;
            out.extend_from_slice(slot.as_slice())
        }
        VaultFrame::Fetch { slot } => {
            out.reserve(21)?;
            out.extend_from_slice(&[0, 0, 0, 17, 0x43])?;
            out.extend_from_slice(slot.as_slice())
        }
        VaultFrame::Ask => out.extend_from_slice(&[0, 0, 0, 1, 0x44]),
    }
}
