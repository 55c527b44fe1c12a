ghost use Rattle.std.specs.Prelude.{◌≡◌, ◌<◌, ◌==◌, ◌||◌, length, nat_lt, slice_index};
ghost use Rattle.std.specs.Char.{is_ascii_digit};
ghost use Rattle.std.specs.List.{list_all};
ghost use Rattle.sse_script.specs.Numbers as numbers;

/// The number that a text writes: decimal, up to 2^64-1, with no sign and no leading zero.
pub(crate) fn number_of(text: &[u8]) -> Option<u64>
    ensures { result ≡ numbers.number_of text.now }
{
    if !is_numeral(text) {
        return None;
    }
    match str::from_utf8(text) {
        Ok(text) => text.parse().ok(),
        Err(_) => None,
    }
}

/// Whether the text is decimal digits, and doesn't begin with a 0 in front of others.
fn is_numeral(text: &[u8]) -> bool
    ensures { result ≡ numbers.is_numeral text.now }
{
    has_no_leading_zero(text) && all_digits(text)
}

fn all_digits(text: &[u8]) -> bool
    ensures { result ≡ list_all is_ascii_digit text.now }
{
    text.iter().all(|byte| byte.is_ascii_digit())
}

/// Whether the text is one byte, or begins with a byte above `0`.
fn has_no_leading_zero(text: &[u8]) -> bool
    ensures { result ≡ (length text.now == 1 || nat_lt 48 (slice_index text.now 0)) }
{
    match text {
        [] => false,
        [_] => true,
        [first, ..] => *first > b'0',
    }
}
