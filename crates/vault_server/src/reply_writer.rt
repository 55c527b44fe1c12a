ghost use Rattle.std.specs.Prelude.{◌≡◌, ◌+◌, ◌≤◌, ◌++◌, length, IsOk, OnErr, OnOk, vec_capacity, vec_len};
ghost use Rattle.vault_server.specs.VaultFrames.{BodyReply, IsShortReply, vault_reply_bytes};
ghost use Rattle.vault_server.specs.VaultViews.{reply_view};

use crate::VaultReply;
use std::alloc::AllocError;

// Promise P198, also here; clauses: bytes, err
/// Appends the bytes of a reply: the length of its body, and the body. It takes no memory if `out` has room for them, as it has
/// if it has room for the 65,604 bytes of the longest reply. Without memory nothing is appended.
pub fn write_vault_reply(reply: &VaultReply<'_>, out: &mut Vec<u8>) -> Result<(), AllocError>
    requires { IsShortReply (reply_view reply.now) }
    ensures bytes { OnOk result (out.new.items ≡ out.old.items ++ vault_reply_bytes (reply_view reply.now)) }
    ensures err { OnErr result (out.new.items ≡ out.old.items) }
    ensures reserved { length out.old.items + length (vault_reply_bytes (reply_view reply.now)) ≤ vec_capacity out.old → IsOk result }
    ensures room { vec_len out.old + 65604 ≤ vec_capacity out.old → IsOk result }
    ensures capacity { vec_capacity out.old ≤ vec_capacity out.new }
{
    match *reply {
        VaultReply::Took(n) => {
            out.reserve(9)?;
            out.extend_from_slice(&[0, 0, 0, 5, 0xc1])?;
            out.extend_from_slice(&n.to_be_bytes())
        }
        VaultReply::Body { tag, sealed } => write_body(tag, sealed, out),
        VaultReply::Absent => out.extend_from_slice(&[0, 0, 0, 1, 0xc3]),
        VaultReply::Next(n) => {
            out.reserve(9)?;
            out.extend_from_slice(&[0, 0, 0, 5, 0xc4])?;
            out.extend_from_slice(&n.to_be_bytes())
        }
        VaultReply::Clash => out.extend_from_slice(&[0, 0, 0, 1, 0xc5]),
        VaultReply::NoMemory => out.extend_from_slice(&[0, 0, 0, 1, 0xc6]),
        VaultReply::StoreFault => out.extend_from_slice(&[0, 0, 0, 1, 0xc7]),
        VaultReply::BadFrame => out.extend_from_slice(&[0, 0, 0, 1, 0xc8]),
    }
}

/// The same, of the reply that hands out what a slot holds.
fn write_body(tag: &[u8; 32], sealed: &[u8], out: &mut Vec<u8>) -> Result<(), AllocError>
    requires { length sealed.now ≤ 65567 }
    ensures bytes { OnOk result (out.new.items ≡ out.old.items ++ vault_reply_bytes (BodyReply tag.now sealed.now)) }
    ensures err { OnErr result (out.new.items ≡ out.old.items) }
    ensures reserved { length out.old.items + length (vault_reply_bytes (BodyReply tag.now sealed.now)) ≤ vec_capacity out.old → IsOk result }
    ensures room { vec_len out.old + 65604 ≤ vec_capacity out.old → IsOk result }
    ensures capacity { vec_capacity out.old ≤ vec_capacity out.new }
{
    let size = 33 + sealed.len() as u32;
    out.reserve(37 + sealed.len())?;
    out.extend_from_slice(&size.to_be_bytes())?;
    out.push(0xc2)?;
    out.extend_from_slice(tag.as_slice())?;
    out.extend_from_slice(sealed)
}
