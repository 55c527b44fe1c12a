ghost use Rattle.std.specs.Prelude.{◌≡◌, ◌≤◌, ◌+◌, [], ◌∷◌, length, decimal};
ghost use Rattle.std.specs.List.{concat};
ghost use Rattle.vault_script.specs.VaultPrints.{CountsFault, TakesText};

use crate::body_digits::print_bytes;
use arrayvec::ArrayString;
use itoa::Buffer;
use sse_outside::{DeviceFault, Sink};

/// Room for a number of at most 20 digits, and 44 bytes of text.
type ShortLine = ArrayString<64>;

/// Prints a number between two texts, without taking memory.
pub fn print_one<W: Sink>(sink: &mut W, front: &str, n: u64, back: &str) -> Result<(), DeviceFault>
    requires { length front.now + length back.now ≤ 44 }
    ensures text { TakesText result (W.written sink.old) (W.written sink.new) (concat (front.now ∷ decimal n ∷ back.now ∷ [])) }
    ensures faults { CountsFault DeviceFault.Failed result (W.faults sink.old) (W.faults sink.new) }
    ensures shortages { CountsFault DeviceFault.NoMemory result (W.shortages sink.old) (W.shortages sink.new) }
{
    let line = one(front, n, back);
    print_bytes(sink, line.as_str().as_bytes())
}

/// A number between two texts.
fn one(front: &str, n: u64, back: &str) -> ShortLine
    requires { length front.now + length back.now ≤ 44 }
    ensures { result.bytes ≡ concat (front.now ∷ decimal n ∷ back.now ∷ []) }
{
    let mut digits = Buffer::new();
    let mut line = ShortLine::new();
    line.push_str(front);
    line.push_str(digits.format(n));
    line.push_str(back);
    line
}
