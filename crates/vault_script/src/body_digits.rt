ghost use Rattle.std.specs.Prelude.{◌≡◌, ◌≤◌, length};
ghost use Rattle.hex.specs.Hex.{encode_lower};
ghost use Rattle.vault_script.specs.VaultPrints.{CountsFault, TakesText};

use sse_outside::{DeviceFault, Sink, print_all};

/// How many bytes of a text are printed at once.
const PIECE: usize = 1024;

/// Prints a text as hexadecimal digits in lower case, without taking memory.
pub fn print_digits<W: Sink>(sink: &mut W, body: &[u8]) -> Result<(), DeviceFault>
    ensures text { TakesText result (W.written sink.old) (W.written sink.new) (encode_lower body.now) }
    ensures faults { CountsFault DeviceFault.Failed result (W.faults sink.old) (W.faults sink.new) }
    ensures shortages { CountsFault DeviceFault.NoMemory result (W.shortages sink.old) (W.shortages sink.new) }
{
    let mut done = 0;
    while done < body.len() {
        let (_, rest) = body.split_at(done);
        let (piece, _) = rest.split_at(rest.len().min(PIECE));
        print_piece(sink, piece)?;
        done += piece.len();
    }
    Ok(())
}

/// Prints a piece of a text.
fn print_piece<W: Sink>(sink: &mut W, piece: &[u8]) -> Result<(), DeviceFault>
    requires { length piece.now ≤ 1024 }
    ensures text { TakesText result (W.written sink.old) (W.written sink.new) (encode_lower piece.now) }
    ensures faults { CountsFault DeviceFault.Failed result (W.faults sink.old) (W.faults sink.new) }
    ensures shortages { CountsFault DeviceFault.NoMemory result (W.shortages sink.old) (W.shortages sink.new) }
{
    let mut digits = [0; 2048];
    let digits = &mut digits[..2 * piece.len()];
    let Ok(()) = hex::encode_to_slice(piece, digits) else {
        unreachable!()
    };
    print_bytes(sink, digits)
}

/// Prints these bytes.
pub fn print_bytes<W: Sink>(sink: &mut W, bytes: &[u8]) -> Result<(), DeviceFault>
    ensures text { TakesText result (W.written sink.old) (W.written sink.new) bytes.now }
    ensures faults { CountsFault DeviceFault.Failed result (W.faults sink.old) (W.faults sink.new) }
    ensures shortages { CountsFault DeviceFault.NoMemory result (W.shortages sink.old) (W.shortages sink.new) }
{
    print_all(sink, bytes)
}
