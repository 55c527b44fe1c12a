ghost use Rattle.std.specs.Prelude.{◌≡◌, ◌≤◌, ◌^◌, ◌∷◌, length, option_map, IfErr};
ghost use Rattle.std.specs.Result.{result_ok};
ghost use Rattle.sse_script.specs.Fields.{fields_of};
ghost use Rattle.sse_script.specs.Lines.{line_by_kind};
ghost use Rattle.script_world.specs.WorldLines as lines;
ghost use Rattle.script_world.specs.WorldLines.{WorldLineText, ScriptLine, world_line_by_kind, world_line_of};
ghost use Rattle.script_world.specs.WorldLineViews.{world_line_view};

use crate::world_line::{Side, WorldLine};
use sse_script::{BadLine, Fields, Line, MAX_LINE, read_line, read_number};

// Promise P328 (caller): A line of a world is read if and only if it is in the grammar.
//   clauses: read, bad
/// Reads one line of a world, the line of this number, without its end (byte 0a). It takes no memory.
///
/// `BadLine(number)` comes exactly if the line isn't in the grammar (specs/WorldLines.antt): more than 2^19 bytes, no
/// known first field, or not the fields that this kind of line has.
pub fn read_world_line(bytes: &[u8], number: u64) -> Result<WorldLine<'_>, BadLine>
    ensures read { option_map world_line_view (result_ok result) ≡ world_line_of bytes.now }
    ensures bad { IfErr result (λ fault. fault ≡ record { 0 = number }) }
{
    match grammar(bytes) {
        Some(line) => Ok(line),
        None => Err(BadLine(number)),
    }
}

/// The line, if it is in the grammar.
fn grammar(bytes: &[u8]) -> Option<WorldLine<'_>>
    ensures { option_map world_line_view result ≡ world_line_of bytes.now }
{
    if bytes.len() > MAX_LINE {
        return None;
    }
    let mut fields = Fields::new(bytes);
    match fields.next() {
        Some(kind) => by_kind(bytes, kind, fields),
        None => Some(WorldLine::Script(Line::Empty)),
    }
}

/// The line of these bytes, which is of this kind and has these fields after it.
fn by_kind<'a>(bytes: &'a [u8], kind: &[u8], fields: Fields<'a>) -> Option<WorldLine<'a>>
    requires short { length bytes.now ≤ 2 ^ 19 }
    requires fields { fields_of bytes.now ≡ kind.now ∷ fields }
    ensures { option_map world_line_view result ≡ world_line_by_kind (kind.now ∷ fields.entry) }
{
    if kind == b"world".as_slice() {
        alone(fields, WorldLine::World)
    } else if kind == b"send".as_slice() {
        alone(fields, WorldLine::Send)
    } else if kind == b"deliver".as_slice() {
        deliver_line(fields)
    } else if kind == b"lose".as_slice() {
        alone(fields, WorldLine::Lose)
    } else if kind == b"stop".as_slice() {
        stop_line(fields)
    } else if kind == b"start".as_slice() {
        start_line(fields)
    } else if kind == b"query".as_slice() {
        None
    } else {
        script_line(bytes)
    }
}

/// A line without other fields.
fn alone<'a>(mut fields: Fields<'_>, line: WorldLine<'a>) -> Option<WorldLine<'a>>
    ensures { option_map world_line_view result ≡ lines.alone (world_line_view line.entry) fields.entry }
{
    if fields.next().is_some() {
        return None;
    }
    Some(line)
}

/// `deliver`: one number.
fn deliver_line(mut fields: Fields<'_>) -> Option<WorldLine<'_>>
    ensures { option_map world_line_view result ≡ lines.deliver_line fields.entry }
{
    let field = fields.next()?;
    if fields.next().is_some() {
        return None;
    }
    let place = read_number(field)?;
    Some(WorldLine::Deliver { place })
}

/// `stop`: a side and two numbers.
fn stop_line(mut fields: Fields<'_>) -> Option<WorldLine<'_>>
    ensures { option_map world_line_view result ≡ lines.stop_line fields.entry }
{
    let side = fields.next()?;
    let call = fields.next()?;
    let pick = fields.next()?;
    if fields.next().is_some() {
        return None;
    }
    let side = side_of(side)?;
    let call = read_number(call)?;
    let pick = read_number(pick)?;
    Some(WorldLine::Stop { side, call, pick })
}

/// `start`: a side.
fn start_line(mut fields: Fields<'_>) -> Option<WorldLine<'_>>
    ensures { option_map world_line_view result ≡ lines.start_line fields.entry }
{
    let field = fields.next()?;
    if fields.next().is_some() {
        return None;
    }
    let side = side_of(field)?;
    Some(WorldLine::Start { side })
}

/// The side of this name.
fn side_of(field: &[u8]) -> Option<Side>
    ensures { result ≡ lines.side_of field.now }
{
    if field == b"client".as_slice() {
        Some(Side::Client)
    } else if field == b"server".as_slice() {
        Some(Side::Server)
    } else {
        None
    }
}

/// A line of a script.
fn script_line(bytes: &[u8]) -> Option<WorldLine<'_>>
    requires { length bytes.now ≤ 2 ^ 19 }
    ensures { option_map world_line_view result ≡ option_map ScriptLine (line_by_kind (fields_of bytes.now)) }
{
    match read_line(bytes, 0) {
        Ok(line) => Some(WorldLine::Script(line)),
        Err(_) => None,
    }
}
