ghost use Rattle.std.specs.Prelude.{◌≡◌, ◌++◌, OnOk, string_bytes};
ghost use Rattle.leakage_texts.specs.LeakTexts as texts;

use itoa::Buffer;
use std::alloc::AllocError;

/// The word for so many of a kind.
pub(crate) fn plural<'a>(n: u64, one: &'a str, many: &'a str) -> &'a str
    ensures { result.now ≡ texts.plural n one.now many.now }
{
    if n == 1 { one } else { many }
}

/// Puts each number, behind a space, at the end of the line.
pub(crate) fn push_numbers(line: &mut String, numbers: &[u64]) -> Result<(), AllocError>
    ensures { OnOk result (string_bytes line.new ≡ string_bytes line.old ++ texts.numbers_text numbers.now) }
{
    let mut digits = Buffer::new();
    for number in numbers {
        line.push_str(" ")?;
        line.push_str(digits.format(*number))?;
    }
    Ok(())
}

/// The same of positions.
pub(crate) fn push_positions(line: &mut String, positions: &[u32]) -> Result<(), AllocError>
    ensures { OnOk result (string_bytes line.new ≡ string_bytes line.old ++ texts.numbers_text positions.now) }
{
    let mut digits = Buffer::new();
    for position in positions {
        line.push_str(" ")?;
        line.push_str(digits.format(*position))?;
    }
    Ok(())
}
