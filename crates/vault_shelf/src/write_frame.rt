ghost use Rattle.std.specs.Prelude.{◌≡◌, ◌<◌, ◌++◌, OnErr, OnOk, length, unwrap_or};
ghost use Rattle.std.specs.List.{AllByRecursion, flat_map};
ghost use Rattle.vault_shelf.specs.Shelves as meant;
ghost use Rattle.vault_shelf.specs.VaultSessions.{draw_by, sent_by};
ghost use Rattle.keyed_fn.specs.KeyedFn.{keyed_fn};
ghost use Rattle.keyed_fn.specs.VaultFormulas.{vault_slot};
ghost use Rattle.vault_server.specs.VaultFrames.{DropFrame, FetchFrame, InVault, vault_bytes};
ghost use Rattle.vault_server.specs.VaultLeaks.{put_frame};
ghost use Rattle.vault_shelf.specs.CommandView.{command_view};
ghost use Rattle.vault_shelf.specs.ShelfView.{CanSend, IsPutSendable, Keeps};

use crate::{Shelf, TextBuffer, VaultCommand};
use keyed_fn::Keyed;
use std::alloc::AllocError;
use vault_server::{VaultFrame, write_vault_frame};
use word_keys::VaultKeys;

// Promise P203 (caller): The frame of a command is the one of the session, encrypted and tagged under the number of its put.
//   clauses: bytes, grammar, err; assumes: earlier calls, own keys; not: That the vault takes it.
/// Appends the frame of a command that isn't refused: a put has the next number and is encrypted as the next put. A get of a
/// text that isn't there has no frame, and nothing is appended; nor is anything without memory.
pub fn write_vault_command<K: Keyed>(
    keyed: &K,
    keys: &VaultKeys,
    shelf: &Shelf,
    command: &VaultCommand<'_>,
    buffer: &mut TextBuffer,
    out: &mut Vec<u8>,
) -> Result<(), AllocError>
    requires { CanSend shelf.now (command_view command.now) }
    ensures bytes { (s : meant.Shelf) → Keeps shelf.now s → OnOk result (out.new.items ≡ out.old.items ++ flat_map vault_bytes (sent_by (keyed_fn K.prf K.pad) keys.now s (command_view command.now))) }
    ensures grammar { (s : meant.Shelf) → Keeps shelf.now s → OnOk result (AllByRecursion InVault (sent_by (keyed_fn K.prf K.pad) keys.now s (command_view command.now))) }
    ensures err { OnErr result (out.new.items ≡ out.old.items) }
{
    match *command {
        VaultCommand::Put { id, body } => write_put(keyed, keys, shelf, id, body, buffer, out),
        VaultCommand::Drop { id } => write_drop(keyed, keys, shelf, id, out),
        VaultCommand::Get { id } => match shelf.put_of(id) {
            Some(put) => write_fetch(keyed, keys, put, out),
            None => Ok(()),
        },
    }
}

/// Appends the frame of a put.
fn write_put<K: Keyed>(
    keyed: &K,
    keys: &VaultKeys,
    shelf: &Shelf,
    id: u64,
    body: &[u8],
    buffer: &mut TextBuffer,
    out: &mut Vec<u8>,
) -> Result<(), AllocError>
    requires { IsPutSendable shelf.now body.now }
    ensures bytes { (s : meant.Shelf) → Keeps shelf.now s → OnOk result (out.new.items ≡ out.old.items ++ vault_bytes (put_frame s.sent (draw_by (keyed_fn K.prf K.pad) keys.now (length s.puts) (record { id = id; body = body.now })))) }
    ensures grammar { (s : meant.Shelf) → Keeps shelf.now s → OnOk result (InVault (put_frame s.sent (draw_by (keyed_fn K.prf K.pad) keys.now (length s.puts) (record { id = id; body = body.now })))) }
    ensures err { OnErr result (out.new.items ≡ out.old.items) }
{
    let v = shelf.puts();
    let tag = buffer.seal(keyed, keys, v, id, body)?;
    let frame = VaultFrame::Put {
        n: shelf.sent(),
        slot: keys.slot(keyed, v),
        tag,
        sealed: buffer.text(),
    };
    write_vault_frame(&frame, out)
}

/// Appends the frame of a drop.
fn write_drop<K: Keyed>(
    keyed: &K,
    keys: &VaultKeys,
    shelf: &Shelf,
    id: u64,
    out: &mut Vec<u8>,
) -> Result<(), AllocError>
    requires { shelf.now.sent < 0xffffffff }
    ensures bytes { (s : meant.Shelf) → Keeps shelf.now s → OnOk result (out.new.items ≡ out.old.items ++ vault_bytes (DropFrame s.sent (vault_slot (keyed_fn K.prf K.pad) keys.now.slots (unwrap_or (s.there id) 0)))) }
    ensures grammar { (s : meant.Shelf) → Keeps shelf.now s → OnOk result (InVault (DropFrame s.sent (vault_slot (keyed_fn K.prf K.pad) keys.now.slots (unwrap_or (s.there id) 0)))) }
    ensures err { OnErr result (out.new.items ≡ out.old.items) }
{
    let put = shelf.put_of(id).unwrap_or(0);
    let frame = VaultFrame::Drop {
        n: shelf.sent(),
        slot: keys.slot(keyed, put),
    };
    write_vault_frame(&frame, out)
}

/// Appends the frame that asks for the text of a put.
fn write_fetch<K: Keyed>(
    keyed: &K,
    keys: &VaultKeys,
    put: u32,
    out: &mut Vec<u8>,
) -> Result<(), AllocError>
    ensures bytes { OnOk result (out.new.items ≡ out.old.items ++ vault_bytes (FetchFrame (vault_slot (keyed_fn K.prf K.pad) keys.now.slots put))) }
    ensures grammar { OnOk result (InVault (FetchFrame (vault_slot (keyed_fn K.prf K.pad) keys.now.slots put))) }
    ensures err { OnErr result (out.new.items ≡ out.old.items) }
{
    let frame = VaultFrame::Fetch {
        slot: keys.slot(keyed, put),
    };
    write_vault_frame(&frame, out)
}
