ghost use Rattle.std.specs.Prelude.{◌≡◌, ◌≢◌, ℕ, ◌∷◌, true, Some, None, option_map, IfOk, OnErr};
ghost use Rattle.vault_script.specs.VaultLines as lines;
ghost use Rattle.vault_script.specs.VaultLines.{bytes_of_digits, has_digits, puts_digits, puts_digits_by_kind, vault_line_by_kind, vault_line_of};
ghost use Rattle.vault_script.specs.VaultLineViews.{vault_line_view};

use crate::VaultLine;
use script_run_texts::InputStop;
use sse_script::{Fields, MAX_LINE, read_key, read_number};
use std::alloc::{AllocError, Global};

// Promise P220 (caller): A vault's script line is read if and only if it is in the grammar, unless memory runs out.
//   clauses: read, bad, memory, source
/// Reads one line of a vault's script, the line of this number, without its end (byte 0a).
///
/// It takes memory for the text of a put. Errors: `Line(number)` if the line isn't in the grammar
/// (specs/VaultLines.antt), that is if it has more than 2^19 bytes, no known first field, or not the fields of its
/// kind; `Memory` if there is no memory for the text, so only of a put with digits.
pub fn read_vault_line(alloc: Global, bytes: &[u8], number: u64) -> Result<VaultLine, InputStop>
    ensures read { IfOk result (λ line. vault_line_of bytes.now ≡ Some (vault_line_view line)) }
    ensures bad { (n : ℕ) → result ≡ Err (InputStop.Line n) → (vault_line_of bytes.now ≡ None) × (n ≡ number) }
    ensures memory { result ≡ Err InputStop.Memory → puts_digits bytes.now ≡ true }
    ensures source { result ≢ Err InputStop.Source }
{
    match grammar(alloc, bytes)? {
        Some(line) => Ok(line),
        None => Err(InputStop::Line(number)),
    }
}

/// The line, if it is in the grammar.
fn grammar(alloc: Global, bytes: &[u8]) -> Result<Option<VaultLine>, AllocError>
    ensures line { IfOk result (λ line. option_map vault_line_view line ≡ vault_line_of bytes.now) }
    ensures memory { OnErr result (puts_digits bytes.now ≡ true) }
{
    if bytes.len() > MAX_LINE {
        return Ok(None);
    }
    let mut fields = Fields::new(bytes);
    match fields.next() {
        Some(kind) => by_kind(alloc, kind, fields),
        None => Ok(Some(VaultLine::Empty)),
    }
}

/// The line of this kind with these fields after it.
fn by_kind(alloc: Global, kind: &[u8], fields: Fields<'_>) -> Result<Option<VaultLine>, AllocError>
    ensures line { IfOk result (λ line. option_map vault_line_view line ≡ vault_line_by_kind (kind.now ∷ fields.entry)) }
    ensures memory { OnErr result (puts_digits_by_kind (kind.now ∷ fields.entry) ≡ true) }
{
    if kind == b"key".as_slice() {
        Ok(key_line(fields))
    } else if kind == b"put".as_slice() {
        put_line(alloc, fields)
    } else if kind == b"drop".as_slice() {
        match one_number(fields) {
            Some(id) => Ok(Some(VaultLine::Drop { id })),
            None => Ok(None),
        }
    } else if kind == b"get".as_slice() {
        match one_number(fields) {
            Some(id) => Ok(Some(VaultLine::Get { id })),
            None => Ok(None),
        }
    } else {
        Ok(None)
    }
}

/// `key`: one field, the master key.
fn key_line(mut fields: Fields<'_>) -> Option<VaultLine>
    ensures { option_map vault_line_view result ≡ lines.key_line fields.entry }
{
    let field = fields.next()?;
    if fields.next().is_some() {
        return None;
    }
    let key = read_key(field)?;
    Some(VaultLine::Key(key))
}

/// `put`: a number, and the digits of the text, which may be left out.
fn put_line(alloc: Global, mut fields: Fields<'_>) -> Result<Option<VaultLine>, AllocError>
    ensures line { IfOk result (λ line. option_map vault_line_view line ≡ lines.put_line fields.entry) }
    ensures memory { OnErr result (has_digits fields.entry ≡ true) }
{
    let Some(first) = fields.next() else {
        return Ok(None);
    };
    let digits = fields.next();
    if fields.next().is_some() {
        return Ok(None);
    }
    let Some(id) = read_number(first) else {
        return Ok(None);
    };
    match digits {
        Some(digits) => put_of(alloc, id, digits),
        None => Ok(Some(VaultLine::Put {
            id,
            body: Vec::new(alloc),
        })),
    }
}

/// The put of this identifier and the text of these digits, if they are digits.
fn put_of(alloc: Global, id: u64, digits: &[u8]) -> Result<Option<VaultLine>, AllocError>
    ensures { IfOk result (λ line. option_map vault_line_view line ≡ lines.put_parts (Some id) (bytes_of_digits digits.now)) }
{
    match body_of(alloc, digits)? {
        Some(body) => Ok(Some(VaultLine::Put { id, body })),
        None => Ok(None),
    }
}

/// The text of these digits, if they are digits, two for each byte.
fn body_of(alloc: Global, digits: &[u8]) -> Result<Option<Vec<u8>>, AllocError>
    ensures { IfOk result (λ body. option_map (λ bytes. bytes.items) body ≡ bytes_of_digits digits.now) }
{
    let mut body = vec![in alloc; 0u8; digits.len() / 2]?;
    match hex::decode_to_slice(digits, &mut body) {
        Ok(()) => Ok(Some(body)),
        Err(_) => Ok(None),
    }
}

/// `drop` and `get`: one number.
fn one_number(mut fields: Fields<'_>) -> Option<u64>
    ensures { (line : ℕ → lines.VaultLineText) → option_map line result ≡ lines.numbered_line line fields.entry }
{
    let field = fields.next()?;
    if fields.next().is_some() {
        return None;
    }
    read_number(field)
}
