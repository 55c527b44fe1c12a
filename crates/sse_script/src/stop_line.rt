ghost use Rattle.std.specs.Prelude.{◌≡◌, ◌+◌, ◌≤◌, ◌++◌, [], ◌∷◌, length, take, codes, decimal, OnOk, OnErr, IsErrOf};
ghost use Rattle.std.specs.List.{concat};
ghost use Rattle.std.specs.Io.KnownBytes.{append_known};
ghost use Rattle.arrayvec.specs.ArrayString.{array_string_len};
ghost use Rattle.hex.specs.Hex.{encode_lower};
ghost use Rattle.sse_outside.specs.Causes.{Rose};
ghost use Rattle.sse_outside.specs.Fronts.{TookFront};
ghost use Rattle.sse_script.specs.Shown as says;
ghost use Rattle.sse_script.specs.ShownViews.{cause_view};
ghost use Rattle.sse_script.specs.Texts.{cause_text, equal_text, text_of};

use crate::Cause;
use crate::pieces::at_most_16;
use arrayvec::ArrayString;
use itoa::Buffer;
use sse_outside::{DeviceFault, Sink, print_all};

/// Room for the longest line that says why a run stopped: three numbers of at most 20 digits, and 36 bytes of text.
type StopLine = ArrayString<96>;

// Promise P09, also here; clauses: all, front, failed, shortage, supplied
// Promise P101, also here; clauses: all, front, failed, steady, no_memory, supplied, failed_supplied, shortage
/// Prints the line that says why a run stopped, its end (byte 0a) included, as `print` does, and takes no memory: the line is
/// made on the stack.
///
/// After an error the sink has taken a proper front of that line, and no other byte. With `DeviceFault::Failed` the sink's
/// count of faults rose, and with `DeviceFault::NoMemory` its count of shortages; with any other answer the count stays.
pub fn print_stop<W: Sink>(sink: &mut W, cause: &Cause<'_>) -> Result<(), DeviceFault>
    ensures all { OnOk result (W.written sink.new ≡ append_known (W.written sink.old) (text_of (says.Stopped (cause_view cause.now)))) }
    ensures front { OnErr result (TookFront (W.written sink.old) (W.written sink.new) (text_of (says.Stopped (cause_view cause.now)))) }
    ensures later { W.faults sink.old ≤ W.faults sink.new }
    ensures failed { IsErrOf result DeviceFault.Failed → Rose (W.faults sink.old) (W.faults sink.new) }
    ensures steady { OnOk result (W.faults sink.new ≡ W.faults sink.old) }
    ensures no_memory { IsErrOf result DeviceFault.NoMemory → W.faults sink.new ≡ W.faults sink.old }
    ensures no_fewer { W.shortages sink.old ≤ W.shortages sink.new }
    ensures shortage { IsErrOf result DeviceFault.NoMemory → Rose (W.shortages sink.old) (W.shortages sink.new) }
    ensures supplied { OnOk result (W.shortages sink.new ≡ W.shortages sink.old) }
    ensures failed_supplied { IsErrOf result DeviceFault.Failed → W.shortages sink.new ≡ W.shortages sink.old }
{
    let line = stop_line(cause);
    print_all(sink, line.as_str().as_bytes())
}

/// That line.
pub fn stop_line(cause: &Cause<'_>) -> StopLine
    ensures { result.bytes ≡ text_of (says.Stopped (cause_view cause.now)) }
{
    let mut line = StopLine::new();
    line.push_str("stopped: ");
    push_cause(&mut line, cause);
    line.push_str("\n");
    line
}

/// Puts the text of a cause at the end.
fn push_cause(line: &mut StopLine, cause: &Cause<'_>)
    requires { array_string_len line.old ≤ 9 }
    ensures text { line.new.bytes ≡ line.old.bytes ++ concat (cause_text (cause_view cause.now)) }
    ensures short { array_string_len line.new ≤ array_string_len line.old + 86 }
{
    match *cause {
        Cause::BadWords => line.push_str("words"),
        Cause::BadLine { number } => push_one(line, "line ", number),
        Cause::SourceFault => line.push_str("source"),
        Cause::LinkFault => line.push_str("link"),
        Cause::DiskFault => line.push_str("disk"),
        Cause::NoMemory => line.push_str("memory"),
        Cause::LabelClash { first, second } => push_equal(line, "labels of words ", first, second),
        Cause::PlaceClash { first, second } => {
            push_equal(line, "places of blocks ", first, second)
        }
        Cause::NumberClash { first, second } => {
            push_equal(line, "numbers of words ", first, second)
        }
        Cause::Clash { what, place } => {
            push_one(line, "clash ", u64::from(what));
            push_one(line, " at ", u64::from(place));
        }
        Cause::PeerElsewhere { low, high, got } => {
            push_one(line, "server is at ", u64::from(got));
            push_one(line, ", wanted ", u64::from(low));
            push_one(line, " to ", u64::from(high));
        }
        Cause::BadReply { reply } => {
            line.push_str("reply ");
            push_digits(line, reply);
        }
        Cause::NoJournal => line.push_str("no journal"),
        Cause::HasRecords => line.push_str("journal has records"),
        Cause::BadRecord { number } => push_one(line, "record ", number),
        Cause::WrongKey => line.push_str("key"),
    }
}

/// Puts two things of a kind that are equal at the end, by their numbers.
fn push_equal(line: &mut StopLine, things: &str, first: u32, second: u32)
    requires { array_string_len line.old + length things.now ≤ 40 }
    ensures text { line.new.bytes ≡ line.old.bytes ++ concat (equal_text things.now first second) }
    ensures short { array_string_len line.new ≤ array_string_len line.old + length things.now + 55 }
{
    push_one(line, things, u64::from(first));
    push_one(line, " and ", u64::from(second));
    line.push_str(" are equal");
}

/// Puts a text and a number at the end.
fn push_one(line: &mut StopLine, text: &str, n: u64)
    requires { array_string_len line.old + length text.now + 20 ≤ 96 }
    ensures text { line.new.bytes ≡ line.old.bytes ++ (text.now ++ decimal n) }
    ensures short { array_string_len line.new ≤ array_string_len line.old + length text.now + 20 }
{
    let mut digits = Buffer::new();
    line.push_str(text);
    line.push_str(digits.format(n));
}

/// Puts the first 16 bytes of a reply, fewer where it is shorter, at the end, as hexadecimal digits.
fn push_digits(line: &mut StopLine, reply: &[u8])
    requires { array_string_len line.old + 32 ≤ 96 }
    ensures text { line.new.bytes ≡ line.old.bytes ++ encode_lower (take 16 reply.now) }
    ensures short { array_string_len line.new ≤ array_string_len line.old + 32 }
{
    let start = at_most_16(reply);
    let mut digits = [0; 32];
    let digits = &mut digits[..2 * start.len()];
    let Ok(()) = hex::encode_to_slice(start, digits) else {
        unreachable!()
    };
    let Ok(text) = str::from_utf8(digits) else {
        unreachable!()
    };
    line.push_str(text);
}
