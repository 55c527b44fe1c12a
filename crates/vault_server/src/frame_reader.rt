ghost use Rattle.std.specs.Prelude.{◌≡◌, ◌≢◌, IfOk, OnErr};
ghost use Rattle.vault_server.specs.VaultFrames.{AskFrame, InVault, IsVaultBody, VaultFrameText, vault_body};
ghost use Rattle.vault_server.specs.VaultReading.{bare_in, drop_in, fetch_in, frame_in, put_in};
ghost use Rattle.vault_server.specs.VaultViews.{frame_read, frame_view};

use crate::VaultFrame;
use crate::numbers::{MAX_BODY, update_number};
use sse_frames::FrameFault;

// Promise P197 (caller): A body is read as a frame or reply of the vault exactly if it is spelled so; otherwise its first fault is named.
//   clauses: read, found, only
/// The frame of which these bytes are the body, or the first fault from the left. It takes no memory.
///
/// Errors: `BadLength` for a body of 0 or of more than 65,600 bytes; `BadKind` for a kind byte other than 41 to 44;
/// `BadBody(place)` where the field that begins at this byte of the body, counted from 0, is cut short, or is the number
/// 2^32 - 1 of an update, or where bytes follow the last field.
pub fn read_vault_frame(body: &[u8]) -> Result<VaultFrame<'_>, FrameFault>
    ensures read { frame_read result ≡ frame_in body.now }
    ensures found { IfOk result (λ frame. IsVaultBody (frame_view frame) body.now) }
    ensures only { OnErr result ((frame : VaultFrameText) → InVault frame → body.now ≢ vault_body frame) }
{
    frame_of(body)
}

/// The same, by its kind byte.
fn frame_of(body: &[u8]) -> Result<VaultFrame<'_>, FrameFault>
    ensures { frame_read result ≡ frame_in body.now }
{
    let Some((kind, rest)) = body.split_first() else {
        return Err(FrameFault::BadLength(0));
    };
    if rest.len() >= MAX_BODY {
        return Err(FrameFault::BadLength(rest.len() as u64 + 1));
    }
    match *kind {
        0x41 => put_in(rest),
        0x42 => drop_in(rest),
        0x43 => fetch_in(rest),
        0x44 => ask_in(rest),
        kind => Err(FrameFault::BadKind(kind)),
    }
}

/// The Put frame of these fields.
fn put_in(rest: &[u8]) -> Result<VaultFrame<'_>, FrameFault>
    ensures { frame_read result ≡ put_in rest.now }
{
    let Some((number, rest)) = rest.split_first_chunk::<4>() else {
        return Err(FrameFault::BadBody(1));
    };
    let Some(n) = update_number(number) else {
        return Err(FrameFault::BadBody(1));
    };
    let Some((slot, rest)) = rest.split_first_chunk::<16>() else {
        return Err(FrameFault::BadBody(5));
    };
    let Some((tag, sealed)) = rest.split_first_chunk::<32>() else {
        return Err(FrameFault::BadBody(21));
    };
    Ok(VaultFrame::Put {
        n,
        slot: *slot,
        tag: *tag,
        sealed,
    })
}

/// The Drop frame of these fields.
fn drop_in(rest: &[u8]) -> Result<VaultFrame<'_>, FrameFault>
    ensures { frame_read result ≡ drop_in rest.now }
{
    let Some((number, rest)) = rest.split_first_chunk::<4>() else {
        return Err(FrameFault::BadBody(1));
    };
    let Some(n) = update_number(number) else {
        return Err(FrameFault::BadBody(1));
    };
    let Some((slot, rest)) = rest.split_first_chunk::<16>() else {
        return Err(FrameFault::BadBody(5));
    };
    if !rest.is_empty() {
        return Err(FrameFault::BadBody(21));
    }
    Ok(VaultFrame::Drop { n, slot: *slot })
}

/// The Fetch frame of these fields.
fn fetch_in(rest: &[u8]) -> Result<VaultFrame<'_>, FrameFault>
    ensures { frame_read result ≡ fetch_in rest.now }
{
    let Some((slot, rest)) = rest.split_first_chunk::<16>() else {
        return Err(FrameFault::BadBody(1));
    };
    if !rest.is_empty() {
        return Err(FrameFault::BadBody(17));
    }
    Ok(VaultFrame::Fetch { slot: *slot })
}

/// The Ask frame, which has no field.
fn ask_in(rest: &[u8]) -> Result<VaultFrame<'_>, FrameFault>
    ensures { frame_read result ≡ bare_in AskFrame rest.now }
{
    if !rest.is_empty() {
        return Err(FrameFault::BadBody(1));
    }
    Ok(VaultFrame::Ask)
}
