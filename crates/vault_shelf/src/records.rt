ghost use Rattle.std.specs.Prelude.{◌≡◌, ◌≢◌, ◌++◌, IfSome, IsNone, OnErr, OnOk, option_map};
ghost use Rattle.vault_shelf.specs.ClientRecords.{IsRecorded, command_record, mark_record};
ghost use Rattle.vault_shelf.specs.Shelves as meant;
ghost use Rattle.vault_shelf.specs.CommandView.{command_view};
ghost use Rattle.vault_shelf.specs.RecordReading.{command_in, drop_in, mark_in, put_in};

use crate::VaultCommand;
use std::alloc::AllocError;

/// The first bytes of the records.
const PUT: u8 = 0x21;

const DROP: u8 = 0x22;

const MARK: u8 = 0x23;

// Promise P205 (caller): A record of a client of the vault has exactly its bytes, and bytes are read as the one record they are.
//   clauses: bytes, err; not: That the record may follow those before it (P206).
/// Appends the first record of a client's journal, the mark of its key. Without memory nothing is appended.
pub fn write_mark_record(mark: &[u8; 16], out: &mut Vec<u8>) -> Result<(), AllocError>
    ensures bytes { OnOk result (out.new.items ≡ out.old.items ++ mark_record mark.now) }
    ensures err { OnErr result (out.new.items ≡ out.old.items) }
{
    out.reserve(17)?;
    out.push(MARK)?;
    out.extend_from_slice(mark.as_slice())
}

// Promise P205, also here; clauses: bytes, err
/// Appends the record of a command; a get has none. Without memory nothing is appended.
pub fn write_vault_record(command: &VaultCommand<'_>, out: &mut Vec<u8>) -> Result<(), AllocError>
    ensures bytes { OnOk result (out.new.items ≡ out.old.items ++ command_record (command_view command.now)) }
    ensures err { OnErr result (out.new.items ≡ out.old.items) }
{
    match *command {
        VaultCommand::Put { id, body } => write_put(id, body, out),
        VaultCommand::Drop { id } => {
            out.reserve(9)?;
            out.push(DROP)?;
            out.extend_from_slice(&id.to_be_bytes())
        }
        VaultCommand::Get { .. } => Ok(()),
    }
}

/// Appends the record of a put.
fn write_put(id: u64, body: &[u8], out: &mut Vec<u8>) -> Result<(), AllocError>
    ensures bytes { OnOk result (out.new.items ≡ out.old.items ++ command_record (meant.Put id body.now)) }
    ensures err { OnErr result (out.new.items ≡ out.old.items) }
{
    out.reserve(9 + body.len())?;
    out.push(PUT)?;
    out.extend_from_slice(&id.to_be_bytes())?;
    out.extend_from_slice(body)
}

// Promise P205, also here; clauses: mark
/// The mark that a record has, to its last byte, if it is the record of a mark.
pub fn read_mark_record(payload: &[u8]) -> Option<[u8; 16]>
    ensures mark { result ≡ mark_in payload.now }
{
    let (kind, rest) = payload.split_first()?;
    if *kind != MARK {
        return None;
    }
    let (mark, end) = rest.split_first_chunk::<16>()?;
    if end.is_empty() {
        return Some(*mark);
    }
    None
}

// Promise P205, also here; clauses: command, recorded, found, none
/// The put or the drop that a record is, to its last byte, if it is one. Whether the command is accepted isn't tested here.
pub fn read_vault_record(payload: &[u8]) -> Option<VaultCommand<'_>>
    ensures command { option_map command_view result ≡ command_in payload.now }
    ensures recorded { IfSome result (λ command. IsRecorded (command_view command)) }
    ensures found { IfSome result (λ command. payload.now ≡ command_record (command_view command)) }
    ensures none { IsNone result → (c : meant.VaultCommand) → IsRecorded c → payload.now ≢ command_record c }
{
    command_of(payload)
}

/// The same, by its first byte.
fn command_of(payload: &[u8]) -> Option<VaultCommand<'_>>
    ensures { option_map command_view result ≡ command_in payload.now }
{
    let (kind, rest) = payload.split_first()?;
    match *kind {
        PUT => read_put(rest),
        DROP => read_drop(rest),
        _ => None,
    }
}

/// The put of these fields.
fn read_put(rest: &[u8]) -> Option<VaultCommand<'_>>
    ensures { option_map command_view result ≡ put_in rest.now }
{
    let (id, body) = rest.split_first_chunk::<8>()?;
    Some(VaultCommand::Put {
        id: u64::from_be_bytes(*id),
        body,
    })
}

/// The drop of these fields.
fn read_drop(rest: &[u8]) -> Option<VaultCommand<'_>>
    ensures { option_map command_view result ≡ drop_in rest.now }
{
    let (id, end) = rest.split_first_chunk::<8>()?;
    if end.is_empty() {
        return Some(VaultCommand::Drop {
            id: u64::from_be_bytes(*id),
        });
    }
    None
}
