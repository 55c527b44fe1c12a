ghost use Rattle.std.specs.Prelude.{◌≡◌, ◌≢◌, IfOk, OnErr};
ghost use Rattle.vault_server.specs.VaultFrames.{InVaultReplies, IsVaultReplyBody, VaultReplyText, vault_reply_body};
ghost use Rattle.vault_server.specs.VaultReading.{bare_in, body_in, next_in, reply_in, took_in};
ghost use Rattle.vault_server.specs.VaultViews.{reply_read, reply_view};

use crate::VaultReply;
use crate::numbers::{MAX_BODY, update_number};
use sse_frames::FrameFault;

// Promise P197, also here; clauses: read, found, only
/// The reply of which these bytes are the body, or the first fault from the left. It takes no memory.
///
/// Errors: `BadLength` for a body of 0 or of more than 65,600 bytes; `BadKind` for a kind byte other than c1 to c8;
/// `BadBody(place)` where the field that begins at this byte of the body, counted from 0, is cut short, or is the number
/// 2^32 - 1 of an update that was taken, or where bytes follow the last field.
pub fn read_vault_reply(body: &[u8]) -> Result<VaultReply<'_>, FrameFault>
    ensures read { reply_read result ≡ reply_in body.now }
    ensures found { IfOk result (λ reply. IsVaultReplyBody (reply_view reply) body.now) }
    ensures only { OnErr result ((reply : VaultReplyText) → InVaultReplies reply → body.now ≢ vault_reply_body reply) }
{
    reply_of(body)
}

/// The same, by its kind byte.
fn reply_of(body: &[u8]) -> Result<VaultReply<'_>, FrameFault>
    ensures { reply_read result ≡ reply_in body.now }
{
    let Some((kind, rest)) = body.split_first() else {
        return Err(FrameFault::BadLength(0));
    };
    if rest.len() >= MAX_BODY {
        return Err(FrameFault::BadLength(rest.len() as u64 + 1));
    }
    match *kind {
        0xc1 => took_in(rest),
        0xc2 => body_in(rest),
        0xc3 => bare_in(VaultReply::Absent, rest),
        0xc4 => next_in(rest),
        0xc5 => bare_in(VaultReply::Clash, rest),
        0xc6 => bare_in(VaultReply::NoMemory, rest),
        0xc7 => bare_in(VaultReply::StoreFault, rest),
        0xc8 => bare_in(VaultReply::BadFrame, rest),
        kind => Err(FrameFault::BadKind(kind)),
    }
}

/// The Took reply of these fields.
fn took_in(rest: &[u8]) -> Result<VaultReply<'_>, FrameFault>
    ensures { reply_read result ≡ took_in rest.now }
{
    let Some((number, rest)) = rest.split_first_chunk::<4>() else {
        return Err(FrameFault::BadBody(1));
    };
    let Some(n) = update_number(number) else {
        return Err(FrameFault::BadBody(1));
    };
    if !rest.is_empty() {
        return Err(FrameFault::BadBody(5));
    }
    Ok(VaultReply::Took(n))
}

/// The Next reply of these fields.
fn next_in(rest: &[u8]) -> Result<VaultReply<'_>, FrameFault>
    ensures { reply_read result ≡ next_in rest.now }
{
    let Some((number, rest)) = rest.split_first_chunk::<4>() else {
        return Err(FrameFault::BadBody(1));
    };
    if !rest.is_empty() {
        return Err(FrameFault::BadBody(5));
    }
    Ok(VaultReply::Next(u32::from_be_bytes(*number)))
}

/// The Body reply of these fields.
fn body_in(rest: &[u8]) -> Result<VaultReply<'_>, FrameFault>
    ensures { reply_read result ≡ body_in rest.now }
{
    let Some((tag, sealed)) = rest.split_first_chunk::<32>() else {
        return Err(FrameFault::BadBody(1));
    };
    Ok(VaultReply::Body { tag, sealed })
}

/// A reply that has no field.
fn bare_in<'a>(reply: VaultReply<'a>, rest: &[u8]) -> Result<VaultReply<'a>, FrameFault>
    ensures { reply_read result ≡ bare_in (reply_view reply.entry) rest.now }
{
    if !rest.is_empty() {
        return Err(FrameFault::BadBody(1));
    }
    Ok(reply)
}
