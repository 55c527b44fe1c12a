use sse_outside::{MemSource, Source, SteadySource};
use sse_script::{LineReader, MAX_LINE, NextLine, ReadStop};
use std::alloc::Global;
use std::test::Fail;

/// How many bytes the reader reads at once.
const CHUNK: usize = 65_536;

/// Every line with its kind, a line that is too long among them.
pub(crate) fn read_all<S: Source>(
    alloc: Global,
    source: &mut S,
) -> Result<Vec<(NextLine, Vec<u8>)>, ReadStop> {
    let mut reader = LineReader::new(alloc)?;
    let mut lines = Vec::new(alloc);
    'lines: loop {
        let mut line = Vec::new(alloc);
        let next = reader.next_line(source, &mut line)?;
        match next {
            NextLine::Line => lines.push((next, line))?,
            NextLine::TooLong => lines.push((next, line))?,
            NextLine::End => return Ok(lines),
        }
    }
}

/// The same of bytes in memory.
pub(crate) fn lines_of(alloc: Global, bytes: &[u8]) -> Option<Vec<(NextLine, Vec<u8>)>> {
    let bytes = bytes.to_vec(alloc).ok()?;
    read_all(alloc, &mut SteadySource::new(bytes)).ok()
}

/// The lines of a text, each with a bar after it; one that is too long has no bytes and its own mark.
fn barred(alloc: Global, text: &[u8]) -> Option<Vec<u8>> {
    let mut barred = Vec::new(alloc);
    for (next, line) in lines_of(alloc, text)?.iter() {
        barred.extend_from_slice(line).ok()?;
        let mark = match next {
            NextLine::TooLong => b'>',
            NextLine::Line | NextLine::End => b'|',
        };
        barred.push(mark).ok()?;
    }
    Some(barred)
}

/// A text, and its lines, each with its bar.
#[derive(Clone, Copy)]
struct Case<'a> {
    text: &'a [u8],
    expected: &'a [u8],
}

#[test]
fn lines_end_with_0a_and_the_last_one_may_not(rt: HostRuntime) -> Result<(), Fail> {
    let cases: [Case<'_>; 6] = [
        Case {
            text: b"",
            expected: b"",
        },
        Case {
            text: b"\n",
            expected: b"|",
        },
        Case {
            text: b"a\n",
            expected: b"a|",
        },
        Case {
            text: b"a",
            expected: b"a|",
        },
        Case {
            text: b"\n\nab\r\nc",
            expected: b"||ab\r|c|",
        },
        Case {
            text: b"a b\n\0\n",
            expected: b"a b|\0|",
        },
    ];
    for Case { text, expected } in cases {
        let lines = barred(rt.alloc(), text).ok_or("no lines")?;
        assert_eq!(rt; lines.as_slice(), expected);
    }
    Ok(())
}

/// Of a line of so many bytes with another behind it: what it is taken for, how many bytes are kept, and whether the other is read.
fn lengths(alloc: Global, count: usize) -> Option<(NextLine, usize, bool)> {
    let mut text = vec![in alloc; b'x'; count].ok()?;
    text.extend_from_slice(b"\nyz").ok()?;
    let lines = lines_of(alloc, &text)?;
    match lines.as_slice() {
        [(next, first), (_, second)] => Some((
            *next,
            first.len(),
            second.as_slice() == b"yz".as_slice(),
        )),
        _ => None,
    }
}

/// A line of so many bytes: what it is taken for, and how many of them are kept.
#[derive(Clone, Copy)]
struct Length {
    bytes: usize,
    next: NextLine,
    kept: usize,
}

#[test]
fn a_line_of_one_byte_more_is_passed_over(rt: HostRuntime) {
    let cases = [
        Length {
            bytes: MAX_LINE,
            next: NextLine::Line,
            kept: MAX_LINE,
        },
        Length {
            bytes: MAX_LINE + 1,
            next: NextLine::TooLong,
            kept: 0,
        },
        Length {
            bytes: 3 * MAX_LINE,
            next: NextLine::TooLong,
            kept: 0,
        },
    ];
    for Length { bytes, next, kept } in cases {
        assert_eq!(rt; lengths(rt.alloc(), bytes), Some((next, kept, true)));
    }
}

#[test]
fn a_read_that_fails_within_a_line_stops(rt: HostRuntime) -> Result<(), Fail> {
    let text = vec![in rt.alloc(); b'x'; CHUNK + 1]?;
    let mut source = MemSource::new(text, vec![in rt.alloc(); 1]?);
    assert_eq!(rt;
        read_all(rt.alloc(), &mut source).err(),
        Some(ReadStop::Failed)
    );
    Ok(())
}
