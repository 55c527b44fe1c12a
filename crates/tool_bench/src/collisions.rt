use std::hash::{DefaultHasher, Hash, Hasher};
use std::io;

/// Where words collide: in the bits of their hash by which an index map of at most 2,304 entries tells its groups, and in
/// those that it keeps beside each entry.
const SAME: u64 = 0xff00_00ff;

/// Prints so many words of eight hexadecimal digits that collide under the hasher with fixed keys, a line each.
pub(crate) fn print(rt: HostRuntime, count: u64) -> io::Result<()> {
    let mut printed = 0u64;
    for number in 0..u32::MAX {
        if printed == count {
            break;
        }
        let digits = digits_of(number);
        let Ok(word) = std::str::from_utf8(&digits) else {
            continue;
        };
        if hash_of(word) & SAME == 0 {
            println!(rt; "{word}")?;
            printed = printed.saturating_add(1);
        }
    }
    Ok(())
}

/// The hash of a word, with its upper half folded into the lower one as an index map does.
fn hash_of(word: &str) -> u64 {
    let mut hasher = DefaultHasher::new();
    word.hash(&mut hasher);
    let hash = hasher.finish();
    hash ^ (hash >> 32)
}

/// The eight hexadecimal digits of a number.
fn digits_of(number: u32) -> [u8; 8] {
    let mut digits = [b'0'; 8];
    for (place, digit) in digits.iter_mut().enumerate() {
        let value = (number >> (28 - 4 * place as u32)) & 15;
        *digit = if value < 10 {
            b'0' + value as u8
        } else {
            b'a' - 10 + value as u8
        };
    }
    digits
}
