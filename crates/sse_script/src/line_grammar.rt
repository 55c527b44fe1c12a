ghost use Rattle.std.specs.Prelude.{◌≡◌, ◌∷◌, option_map, IfErr};
ghost use Rattle.std.specs.Result.{result_ok};
ghost use Rattle.sse_script.specs.Lines as lines;
ghost use Rattle.sse_script.specs.Lines.{line_of, line_by_kind};
ghost use Rattle.sse_script.specs.Views.{line_view};

use crate::key::read_key;
use crate::number::read_number;
use crate::{BadLine, Fields, Line, MAX_LINE};

// Promise P100 (caller): A script's line is read if and only if it is in the grammar.
//   clauses: read, bad
/// Reads one line of a script, without its end (byte 0a). It takes no memory.
///
/// `BadLine(number)` comes exactly where the line isn't in the grammar (specs/Lines.antt): more than 2^19 bytes,
/// no known first field, or not the fields that this kind of line has.
pub fn read_line(line: &[u8], number: u64) -> Result<Line<'_>, BadLine>
    ensures read { option_map line_view (result_ok result) ≡ line_of line.now }
    ensures bad { IfErr result (λ fault. fault ≡ record { 0 = number }) }
{
    match grammar(line) {
        Some(line) => Ok(line),
        None => Err(BadLine(number)),
    }
}

/// The line, where it is in the grammar.
fn grammar(line: &[u8]) -> Option<Line<'_>>
    ensures { option_map line_view result ≡ line_of line.now }
{
    if line.len() > MAX_LINE {
        return None;
    }
    let mut fields = Fields::new(line);
    match fields.next() {
        Some(kind) => by_kind(kind, fields),
        None => Some(Line::Empty),
    }
}

/// The line of this kind with these fields after it.
fn by_kind<'a>(kind: &[u8], fields: Fields<'a>) -> Option<Line<'a>>
    ensures { option_map line_view result ≡ line_by_kind (kind.now ∷ fields.entry) }
{
    if kind == b"key".as_slice() {
        match key_alone(fields) {
            Some(key) => Some(Line::Key(key)),
            None => None,
        }
    } else if kind == b"doc".as_slice() {
        match numbered(fields) {
            Some((id, words)) => Some(Line::Doc { id, words }),
            None => None,
        }
    } else if kind == b"setup".as_slice() {
        setup_line(fields)
    } else if kind == b"add".as_slice() {
        match numbered(fields) {
            Some((id, words)) => Some(Line::Add { id, words }),
            None => None,
        }
    } else if kind == b"del".as_slice() {
        delete_line(fields)
    } else if kind == b"find".as_slice() {
        find_line(fields)
    } else if kind == b"query".as_slice() {
        Some(Line::Query(fields))
    } else if kind == b"rebuild".as_slice() {
        match key_alone(fields) {
            Some(key) => Some(Line::Rebuild(key)),
            None => None,
        }
    } else {
        None
    }
}

/// `key` and `rebuild`: one field, the master key.
fn key_alone(mut fields: Fields<'_>) -> Option<[u8; 32]>
    ensures { result ≡ lines.key_alone fields.entry }
{
    let field = fields.next()?;
    if fields.next().is_some() {
        return None;
    }
    read_key(field)
}

/// A number, and the fields after it.
fn numbered(mut fields: Fields<'_>) -> Option<(u64, Fields<'_>)>
    ensures { option_map (λ parts. lines.Doc parts.0 parts.1) result ≡ lines.document_line lines.Doc fields.entry }
{
    let id = read_number(fields.next()?)?;
    Some((id, fields))
}

/// `setup`: two numbers or three; the third is 1 where there are two.
fn setup_line(mut fields: Fields<'_>) -> Option<Line<'_>>
    ensures { option_map line_view result ≡ lines.setup_line fields.entry }
{
    let b = fields.next()?;
    let big = fields.next()?;
    let pad = fields.next();
    if fields.next().is_some() {
        return None;
    }
    let b = read_number(b)?;
    let big = read_number(big)?;
    let pad = match pad {
        Some(field) => read_number(field)?,
        None => 1,
    };
    Some(Line::Setup { b, big, pad })
}

/// `del`: one number.
fn delete_line(mut fields: Fields<'_>) -> Option<Line<'_>>
    ensures { option_map line_view result ≡ lines.delete_line fields.entry }
{
    let field = fields.next()?;
    if fields.next().is_some() {
        return None;
    }
    let id = read_number(field)?;
    Some(Line::Del { id })
}

/// `find`: one field, the word.
fn find_line(mut fields: Fields<'_>) -> Option<Line<'_>>
    ensures { option_map line_view result ≡ lines.find_line fields.entry }
{
    let word = fields.next()?;
    if fields.next().is_some() {
        return None;
    }
    Some(Line::Find { word })
}
