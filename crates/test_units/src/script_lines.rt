use crate::line_reader::lines_of;
use sse_outside::{DeviceFault, MemSink, SteadySink};
use sse_script::{BadLine, Cause, Fields, Line, Refusal, Shown, print, print_stop, read_line};
use std::alloc::{AllocError, Global};
use std::test::Fail;

/// Lines of a script. The first is empty.
const LINES: &[u8] = b"
   
key 000102030405060708090a0b0c0d0e0f101112131415161718191A1B1c1D1e1F
key 000102030405060708090a0b0c0d0e0f101112131415161718191a1b1c1d1e1
key 000102030405060708090a0b0c0d0e0f101112131415161718191a1b1c1d1e1f0
key 000102030405060708090a0b0c0d0e0f101112131415161718191a1b1c1d1e1g
key
doc 3 a b
  doc   3  a   b  
doc 9
doc
doc 18446744073709551615 a
doc 18446744073709551616 a
doc 36893488147419103232
doc 007 a
doc 00
doc 0 a
doc +1 a
doc 1a b
doc 1 a a
doc\t1 a
setup 4 4
setup 4
setup 4 4 1
setup  4 8  18446744073709551615 
setup 4 4 18446744073709551616
setup 4 4 0
setup 4 4 01
setup 4 4 1 1
setup 4 4 x
setup 04 4
setup 0 65536
add 5 c
add 5
add
del 3
del 3 4
del 03
 find  a 
find \xc3\xa9
find
find a b
twin
Doc 1
keys
find a\r
query =a and  =b
query
 rebuild  000102030405060708090a0b0c0d0e0f101112131415161718191A1B1c1D1e1F 
rebuild 000102030405060708090a0b0c0d0e0f101112131415161718191a1b1c1d1e1
rebuild 000102030405060708090a0b0c0d0e0f101112131415161718191a1b1c1d1e1f0
rebuild 000102030405060708090a0b0c0d0e0f101112131415161718191a1b1c1d1e1g
rebuild 000102030405060708090a0b0c0d0e0f101112131415161718191a1b1c1d1e1f 1
rebuild
";

/// What each of them says: the kind, numbers in decimal, the key and words in hexadecimal digits; by an independent reader of the
/// format.
const SAYS: &str = "\
empty
empty
key 000102030405060708090a0b0c0d0e0f101112131415161718191a1b1c1d1e1f
bad 7
bad 7
bad 7
bad 7
doc 3 61 62
doc 3 61 62
doc 9
bad 7
doc 18446744073709551615 61
bad 7
bad 7
bad 7
bad 7
doc 0 61
bad 7
bad 7
doc 1 61 61
bad 7
setup 4 4 1
bad 7
setup 4 4 1
setup 4 8 18446744073709551615
bad 7
setup 4 4 0
bad 7
bad 7
bad 7
bad 7
setup 0 65536 1
add 5 63
add 5
bad 7
del 3
bad 7
bad 7
find 61
find c3a9
bad 7
bad 7
bad 7
bad 7
bad 7
find 610d
query 3d61 616e64 3d62
query
rebuild 000102030405060708090a0b0c0d0e0f101112131415161718191a1b1c1d1e1f
bad 7
bad 7
bad 7
bad 7
bad 7
";

fn with_words(
    alloc: Global,
    mut text: String,
    mut words: Fields<'_>,
) -> Result<String, AllocError> {
    while let Some(word) = words.next() {
        let digits = in_hex(alloc, word)?;
        text.push_str(" ")?;
        text.push_str(digits.as_str())?;
    }
    Ok(text)
}

fn in_hex(alloc: Global, bytes: &[u8]) -> Result<String, AllocError> {
    hex::encode(alloc, bytes)
}

/// What line 7 of a script says.
fn said(alloc: Global, line: &[u8]) -> Result<String, AllocError> {
    match read_line(line, 7) {
        Ok(Line::Empty) => String::from_str(alloc, "empty"),
        Ok(Line::Key(key)) => {
            let digits = in_hex(alloc, &key)?;
            format!(in alloc; "key {digits}")
        }
        Ok(Line::Doc { id, words }) => with_words(alloc, format!(in alloc; "doc {id}")?, words),
        Ok(Line::Setup { b, big, pad }) => format!(in alloc; "setup {b} {big} {pad}"),
        Ok(Line::Add { id, words }) => with_words(alloc, format!(in alloc; "add {id}")?, words),
        Ok(Line::Del { id }) => format!(in alloc; "del {id}"),
        Ok(Line::Find { word }) => {
            let digits = in_hex(alloc, word)?;
            format!(in alloc; "find {digits}")
        }
        Ok(Line::Query(fields)) => with_words(alloc, String::from_str(alloc, "query")?, fields),
        Ok(Line::Rebuild(key)) => {
            let digits = in_hex(alloc, &key)?;
            format!(in alloc; "rebuild {digits}")
        }
        Err(BadLine(number)) => format!(in alloc; "bad {number}"),
    }
}

#[test]
fn lines_of_a_script(rt: HostRuntime) -> Result<(), Fail> {
    let alloc = rt.alloc();
    let mut says = String::new(alloc);
    for (_, line) in lines_of(alloc, LINES).ok_or("no lines")?.iter() {
        says.push_str(said(alloc, line)?.as_str())?;
        says.push_str("\n")?;
    }
    assert_eq!(rt; says.as_str(), SAYS);
    Ok(())
}

#[test]
fn a_line_has_at_most_2_to_19_bytes(rt: HostRuntime) -> Result<(), Fail> {
    let mut line = Vec::from_slice(rt.alloc(), b"find ".as_slice())?;
    line.resize(1 << 19, b'a')?;
    assert!(rt; read_line(&line, 1).is_ok());
    line.push(b'a')?;
    assert!(rt; read_line(&line, 1).is_err());
    Ok(())
}

/// What is printed after commands, the texts being those of an independent program, here and below.
const COMMANDS: [Shown<'static>; 7] = [
    Shown::SetUp {
        words: 2,
        blocks: 0,
    },
    Shown::Added { id: u64::MAX },
    Shown::Deleted { id: 5 },
    Shown::Found { ids: &[] },
    Shown::Found { ids: &[3, 9] },
    Shown::Resumed { frames: u32::MAX },
    Shown::Rebuilt {
        words: 1,
        blocks: u32::MAX,
    },
];

const COMMANDS_PRINTED: &str = "\
set up 2 words 0 blocks
added 18446744073709551615
deleted 5
found 0:
found 2: 3 9
resumed 4294967295 frames
rebuilt 1 words 4294967295 blocks
";

/// Refusals.
const REFUSALS: [Refusal; 19] = [
    Refusal::NotSetUp,
    Refusal::SetUpAlready,
    Refusal::Zero,
    Refusal::TooLong { position: 0, n: 65 },
    Refusal::BadByte {
        position: 1,
        place: 63,
    },
    Refusal::TooManyWords { n: 4097 },
    Refusal::RepeatedWord { position: 1 },
    Refusal::AlreadyLive { id: 1 },
    Refusal::UnknownDocument { id: 3 },
    Refusal::TooManyDocuments { n: 262145 },
    Refusal::TooManyPairs { n: 1048577 },
    Refusal::TooManyBytes { n: 268435457 },
    Refusal::BadParameter { which: 0, value: 0 },
    Refusal::BadParameter {
        which: 1,
        value: 257,
    },
    Refusal::BadParameter {
        which: 2,
        value: u64::MAX,
    },
    Refusal::ListTooLong { word: 0, n: 9 },
    Refusal::CounterFull { position: 2 },
    Refusal::HistoryFull,
    Refusal::KeyUsed { epoch: 3 },
];

const REFUSALS_PRINTED: &str = "\
refused: not set up
refused: set up already
refused: identifier zero
refused: word 0 is too long: 65
refused: word 1 has a bad byte at 63
refused: too many words: 4097
refused: word 1 is repeated
refused: document 1 is live
refused: unknown document 3
refused: too many documents: 262145
refused: too many pairs: 1048577
refused: too many bytes: 268435457
refused: b is 0
refused: B is 257
refused: Q is 18446744073709551615
refused: list of word 0 has 9 identifiers
refused: counter of word 2 is full
refused: history is full
refused: key of epoch 3
";

/// Why a run stopped.
const STOPS: [Cause<'static>; 17] = [
    Cause::BadWords,
    Cause::BadLine { number: 2 },
    Cause::SourceFault,
    Cause::LinkFault,
    Cause::DiskFault,
    Cause::NoMemory,
    Cause::LabelClash {
        first: 0,
        second: 1,
    },
    Cause::PlaceClash {
        first: 1,
        second: 2,
    },
    Cause::NumberClash {
        first: 3,
        second: 4,
    },
    Cause::Clash { what: 2, place: 7 },
    Cause::PeerElsewhere {
        low: 0,
        high: 1,
        got: 9,
    },
    Cause::BadReply {
        reply: b"\x00\x00\x00\x01\x86",
    },
    Cause::BadReply {
        reply: b"\x00\x00\x00\x0c\x85\x01\x00\x01\x00\x00\x00\x00\x00\x00\x00\xff\x4d",
    },
    Cause::NoJournal,
    Cause::HasRecords,
    Cause::BadRecord { number: 0 },
    Cause::WrongKey,
];

const STOPS_PRINTED: &str = "\
stopped: words
stopped: line 2
stopped: source
stopped: link
stopped: disk
stopped: memory
stopped: labels of words 0 and 1 are equal
stopped: places of blocks 1 and 2 are equal
stopped: numbers of words 3 and 4 are equal
stopped: clash 2 at 7
stopped: server is at 9, wanted 0 to 1
stopped: reply 0000000186
stopped: reply 0000000c8501000100000000000000ff
stopped: no journal
stopped: journal has records
stopped: record 0
stopped: key
";

/// All that is printed, in memory.
fn printed(alloc: Global, rows: &[Shown<'_>]) -> Option<SteadySink> {
    let mut sink = SteadySink::new(alloc);
    for shown in rows {
        print(alloc, &mut sink, shown).ok()?;
    }
    Some(sink)
}

#[test]
fn lines_of_commands_and_refusals(rt: HostRuntime) -> Result<(), Fail> {
    let commands = printed(rt.alloc(), &COMMANDS).ok_or("not printed")?;
    let refusals = printed(rt.alloc(), &REFUSALS.map(|refusal| Shown::Refused(refusal))).ok_or(
        "not printed",
    )?;
    assert_eq!(rt; commands.bytes(), COMMANDS_PRINTED.as_bytes());
    assert_eq!(rt; refusals.bytes(), REFUSALS_PRINTED.as_bytes());
    Ok(())
}

/// The last lines of runs without memory.
fn stops(alloc: Global) -> Option<SteadySink> {
    let mut sink = SteadySink::new(alloc);
    for cause in STOPS {
        print_stop(&mut sink, &cause).ok()?;
    }
    Some(sink)
}

/// With memory and without.
#[test]
fn lines_of_stops(rt: HostRuntime) -> Result<(), Fail> {
    let with = printed(rt.alloc(), &STOPS.map(|cause| Shown::Stopped(cause))).ok_or("not printed")?;
    let without = stops(rt.alloc()).ok_or("not printed")?;
    assert_eq!(rt; with.bytes(), STOPS_PRINTED.as_bytes());
    assert_eq!(rt; without.bytes(), STOPS_PRINTED.as_bytes());
    Ok(())
}

#[test]
fn a_search_that_finds_every_document_of_a_full_setup_is_printed(
    rt: HostRuntime,
) -> Result<(), Fail> {
    let ids = vec![in rt.alloc(); 7; 1 << 18]?;
    let sink = printed(rt.alloc(), &[Shown::Found { ids: &ids }]).ok_or("not printed")?;
    assert!(rt; sink.bytes().starts_with(b"found 262144: 7 7 7"));
    assert_eq!(rt; sink.bytes().len(), 13 + 2 * (1 << 18) + 1);
    Ok(())
}

#[test]
fn a_failing_sink_has_the_lines_before(rt: HostRuntime) -> Result<(), Fail> {
    let fails = Vec::from_slice(rt.alloc(), [1].as_slice())?;
    let mut sink = MemSink::new(rt.alloc(), fails);
    assert_eq!(rt;
        print(rt.alloc(), &mut sink, &Shown::Deleted { id: 5 }),
        Ok(())
    );
    assert_eq!(rt;
        print(rt.alloc(), &mut sink, &Shown::Stopped(Cause::BadWords)),
        Err(DeviceFault::Failed)
    );
    assert_eq!(rt; sink.bytes(), b"deleted 5\n".as_slice());
    Ok(())
}
