ghost use Rattle.std.specs.Prelude.{◌≡◌, ◌+◌, ◌≤◌, ◌++◌, length, decimal, OnOk, OnErr, IsErrOf};
ghost use Rattle.std.specs.Io.KnownBytes.{append_known};
ghost use Rattle.arrayvec.specs.ArrayString.{array_string_len};
ghost use Rattle.sse_outside.specs.Causes.{Rose};
ghost use Rattle.sse_outside.specs.Fronts.{TookFront};
ghost use Rattle.std.specs.Option.{option_map_or};
ghost use Rattle.sse_script.specs.TextLines.{lines_of};
ghost use Rattle.script_made_lines.specs.Summary as summary;
ghost use Rattle.script_made_lines.specs.Summary.{made_summary};

use crate::printed::{Counts, count_with, first_counts, identifiers_shown};
use arrayvec::ArrayString;
use itoa::Buffer;
use sse_outside::{DeviceFault, Sink, print_all};

/// Room for the summary: six numbers of at most 20 digits, and 83 bytes of text.
type SummaryLine = ArrayString<256>;

// Promise P102, also here; clauses: all, front, failed, steady, no_memory, shortage, supplied, failed_supplied
/// Prints the line that sums up a run of the made script for so many documents, its end (byte 0a) included, by the lines that the run
/// printed: the words and blocks of its `set up` line, how many lines tell a deletion and an addition, and how many identifiers
/// its searches show. It takes no memory: the line is made on the stack.
///
/// After an error the sink has taken a proper front of that line, and no other byte. With `DeviceFault::Failed` the sink's
/// count of faults rose, and with `DeviceFault::NoMemory` its count of shortages; with any other answer the count stays.
pub fn print_summary<W: Sink>(
    sink: &mut W,
    documents: u32,
    printed: &[u8],
) -> Result<(), DeviceFault>
    ensures all { OnOk result (W.written sink.new ≡ append_known (W.written sink.old) (made_summary documents printed.now)) }
    ensures front { OnErr result (TookFront (W.written sink.old) (W.written sink.new) (made_summary documents printed.now)) }
    ensures later { W.faults sink.old ≤ W.faults sink.new }
    ensures failed { IsErrOf result DeviceFault.Failed → Rose (W.faults sink.old) (W.faults sink.new) }
    ensures steady { OnOk result (W.faults sink.new ≡ W.faults sink.old) }
    ensures no_memory { IsErrOf result DeviceFault.NoMemory → W.faults sink.new ≡ W.faults sink.old }
    ensures no_fewer { W.shortages sink.old ≤ W.shortages sink.new }
    ensures shortage { IsErrOf result DeviceFault.NoMemory → Rose (W.shortages sink.old) (W.shortages sink.new) }
    ensures supplied { OnOk result (W.shortages sink.new ≡ W.shortages sink.old) }
    ensures failed_supplied { IsErrOf result DeviceFault.Failed → W.shortages sink.new ≡ W.shortages sink.old }
{
    let line = summary_line(documents, printed);
    print_all(sink, line.as_str().as_bytes())
}

/// That line.
fn summary_line(documents: u32, printed: &[u8]) -> SummaryLine
    ensures { result.bytes ≡ made_summary documents printed.now }
{
    let counts = told_counts(printed);
    let mut line = SummaryLine::new();
    push_one(&mut line, "gen: ", u64::from(documents));
    push_one(&mut line, " documents, ", counts.words);
    push_one(&mut line, " words, ", counts.blocks);
    push_one(
        &mut line,
        " blocks, ",
        count_with(b"deleted ", printed) as u64,
    );
    push_one(
        &mut line,
        " deleted, ",
        count_with(b"added ", printed) as u64,
    );
    push_one(
        &mut line,
        " added, 200 searches, ",
        identifiers_shown(printed) as u64,
    );
    line.push_str(" identifiers\n");
    line
}

/// The words and blocks that the printed lines tell; none where they tell no setup.
fn told_counts(printed: &[u8]) -> Counts
    ensures words { result.words ≡ option_map_or (λ counts. counts.words) (summary.first_counts (lines_of printed.now)) 0 }
    ensures blocks { result.blocks ≡ option_map_or (λ counts. counts.blocks) (summary.first_counts (lines_of printed.now)) 0 }
{
    match first_counts(printed) {
        Some(counts) => counts,
        None => Counts {
            words: 0,
            blocks: 0,
        },
    }
}

/// Puts a text and a number at the end.
fn push_one(line: &mut SummaryLine, text: &str, n: u64)
    requires { array_string_len line.old + length text.now + 20 ≤ 256 }
    ensures text { line.new.bytes ≡ line.old.bytes ++ (text.now ++ decimal n) }
    ensures short { array_string_len line.new ≤ array_string_len line.old + length text.now + 20 }
{
    let mut digits = Buffer::new();
    line.push_str(text);
    line.push_str(digits.format(n));
}
