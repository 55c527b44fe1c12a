ghost use Rattle.std.specs.Prelude.{◌≡◌, ◌==◌, ◌||◌, length, nat_lt, slice_index};
ghost use Rattle.std.specs.Char.{is_ascii_digit};
ghost use Rattle.std.specs.List.{list_all};
ghost use Rattle.sse_script.specs.Numbers as numbers;

/// The number that the field writes: decimal, up to 2^64-1, with no sign and no leading zero.
pub fn read_number(field: &[u8]) -> Option<u64>
    ensures { result ≡ numbers.number_of field.now }
{
    if !is_numeral(field) {
        return None;
    }
    match str::from_utf8(field) {
        Ok(text) => text.parse().ok(),
        Err(_) => None,
    }
}

/// Whether the field is decimal digits, and doesn't begin with a 0 in front of others.
fn is_numeral(field: &[u8]) -> bool
    ensures { result ≡ numbers.is_numeral field.now }
{
    has_no_leading_zero(field) && all_digits(field)
}

fn all_digits(field: &[u8]) -> bool
    ensures { result ≡ list_all is_ascii_digit field.now }
{
    field.iter().all(|byte| byte.is_ascii_digit())
}

/// Whether the field is one byte, or begins with a byte above `0`.
fn has_no_leading_zero(field: &[u8]) -> bool
    ensures { result ≡ (length field.now == 1 || nat_lt 48 (slice_index field.now 0)) }
{
    match field {
        [] => false,
        [_] => true,
        [first, ..] => *first > b'0',
    }
}
