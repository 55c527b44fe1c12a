ghost use Rattle.std.specs.Prelude.{◌≡◌, ◌≤◌, ◌==◌, ◌||◌, length, nat_lt, slice_index, IfSome};
ghost use Rattle.std.specs.Char.{is_ascii_digit};
ghost use Rattle.std.specs.List.{list_all};
ghost use Rattle.program_words.specs.Numbers as numbers;

/// The number that a word writes, where it is one from `low` to `high`: decimal, with no sign and no leading zero.
pub fn number_within(word: &str, low: u32, high: u32) -> Option<u32>
    ensures number { result ≡ numbers.number_within low high word.now }
    ensures most { IfSome result (λ n. n ≤ high) }
{
    match number_of(word) {
        Some(n) => within(n, low, high),
        None => None,
    }
}

/// The number, where it is one from `low` to `high`.
fn within(n: u32, low: u32, high: u32) -> Option<u32>
    ensures number { result ≡ numbers.within low high n }
    ensures most { IfSome result (λ n. n ≤ high) }
{
    if low <= n && n <= high { Some(n) } else { None }
}

/// The number up to 2^32-1 that a word writes.
fn number_of(word: &str) -> Option<u32>
    ensures { result ≡ numbers.number_of word.now }
{
    if !is_numeral(word.as_bytes()) {
        return None;
    }
    word.parse().ok()
}

/// Whether the bytes are decimal digits, and don't begin with a 0 in front of others.
pub(crate) fn is_numeral(bytes: &[u8]) -> bool
    ensures { result ≡ numbers.is_numeral bytes.now }
{
    has_no_leading_zero(bytes) && all_digits(bytes)
}

fn all_digits(bytes: &[u8]) -> bool
    ensures { result ≡ list_all is_ascii_digit bytes.now }
{
    bytes.iter().all(|byte| byte.is_ascii_digit())
}

/// Whether it is one byte, or begins with a byte above `0`.
fn has_no_leading_zero(bytes: &[u8]) -> bool
    ensures { result ≡ (length bytes.now == 1 || nat_lt 48 (slice_index bytes.now 0)) }
{
    match bytes {
        [] => false,
        [_] => true,
        [first, ..] => *first > b'0',
    }
}
