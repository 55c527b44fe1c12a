ghost use Rattle.std.specs.Prelude.{◌≡◌, [], ◌∷◌, not, IfSome, IfNone};
ghost use Rattle.std.specs.List.{prefix_len};
ghost use Rattle.sse_script.specs.Fields.{is_space, fields_of};

use std::marker::Model;

/// The fields of a line that are still to come, from the left.
///
/// A field is a run of bytes other than a space (byte 20); spaces before, between and after fields don't count.
/// Contracts see the list of the fields, so `length` of it is the measure of a loop over `next`.
#[derive(Drop)]
pub struct Fields<'a> {
    rest: &'a [u8],
}

impl<'a> Model for Fields<'a> {
    ghost use Rattle.std.specs.Prelude.{ℕ, List};
    ghost use Rattle.sse_script.specs.Fields.{fields_of};

    ghost Value = { List (List ℕ) };

    ghost view = { λ f. fields_of f.rest.now };
}

impl<'a> Fields<'a> {
    ghost use Rattle.std.specs.Prelude.{◌≡◌, [], ◌∷◌, IfSome, IfNone};
    ghost use Rattle.sse_script.specs.Fields.{fields_of};

    /// The fields of these bytes.
    pub fn new(line: &'a [u8]) -> Fields<'a>
        ensures { result ≡ fields_of line.now }
    {
        Fields { rest: line }
    }

    /// The next field, or `None` where there is none left.
    pub fn next(&mut self) -> Option<&'a [u8]>
        ensures some { IfSome result (λ field. self.old ≡ field.now ∷ self.new) }
        ensures none { IfNone result ((self.old ≡ []) × (self.new ≡ [])) }
    {
        match next_field(self.rest) {
            Some((field, rest)) => {
                self.rest = rest;
                Some(field)
            }
            None => None,
        }
    }
}

/// The first field of the bytes, and the bytes after it.
fn next_field(bytes: &[u8]) -> Option<(&[u8], &[u8])>
    ensures some { IfSome result (λ found. fields_of bytes.now ≡ found.0.now ∷ fields_of found.1.now) }
    ensures none { IfNone result (fields_of bytes.now ≡ []) }
{
    let (_, fields) = bytes.split_at(spaces(bytes));
    let (field, rest) = fields.split_at(field_len(fields));
    if field.is_empty() {
        return None;
    }
    Some((field, rest))
}

/// How many spaces the bytes begin with.
fn spaces(bytes: &[u8]) -> usize
    ensures { result ≡ prefix_len is_space bytes.now }
{
    bytes.iter().take_while(|byte| **byte == b' ').count()
}

/// How many bytes stand before the first space.
fn field_len(bytes: &[u8]) -> usize
    ensures { result ≡ prefix_len (λ byte. not (is_space byte)) bytes.now }
{
    bytes.iter().take_while(|byte| **byte != b' ').count()
}
