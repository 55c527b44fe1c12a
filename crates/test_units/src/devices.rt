ghost use Rattle.std.specs.Prelude.{◌+◌, ◌<◌, ◌^◌};

use sse_outside::{
    DeviceFault, Disk, Failed, FileDisk, MemSink, MemSource, Sink, Source, StdSink, StdSource,
    SteadySink, SteadySource, print_all, read_full, write_full,
};
use std::cell::Cell;
use std::fs::File;
use std::io::{ErrorKind, Read, Write};
use std::os::unix::fs::FileExt;
use std::test::Fail;
use std::{fs, io};

/// The most bytes of a file.
const MOST_BYTES: u64 = 1 << 63;

/// The answers of two writes of two bytes, whole, and of one more.
fn written(
    sink: &mut MemSink,
) -> (
    Result<(), DeviceFault>,
    Result<(), DeviceFault>,
    Option<usize>,
) {
    let first = print_all(sink, b"ab");
    let second = print_all(sink, b"cd");
    (first, second, sink.write(b"ef").ok())
}

/// The second of three writes fails, and what it was to write is not there.
#[test]
fn listed_writes_fail_and_take_nothing(rt: HostRuntime) -> Result<(), Fail> {
    let mut sink = MemSink::new(rt.alloc(), vec![in rt.alloc(); 1]?);
    let answers = written(&mut sink);
    assert_eq!(rt;
        (answers, sink.bytes()),
        (
            (Ok(()), Err(DeviceFault::Failed), Some(2)),
            b"abef".as_slice()
        )
    );
    Ok(())
}

/// One read: its answer, and the bytes that it is given room for, behind it.
fn read<S: Source>(source: &mut S, out: &mut [u8; 3]) -> (Result<usize, Failed>, [u8; 3]) {
    let answer = source.read(out);
    (answer, *out)
}

/// The second and the third read fail, and the next one gives what came after the first.
#[test]
fn listed_reads_fail_and_lose_nothing(rt: HostRuntime) -> Result<(), Fail> {
    let fails = vec![in rt.alloc(); 1, 2]?;
    let mut source = MemSource::new(b"abcde".to_vec(rt.alloc())?, fails);
    let mut out = [0; 3];
    let reads = [
        read(&mut source, &mut out),
        read(&mut source, &mut out),
        read(&mut source, &mut out),
        read(&mut source, &mut out),
        read(&mut source, &mut out),
    ];
    assert_eq!(rt;
        reads,
        [
            (Ok(3), *b"abc"),
            (Err(Failed), *b"abc"),
            (Err(Failed), *b"abc"),
            (Ok(2), *b"dec"),
            (Ok(0), *b"dec"),
        ]
    );
    Ok(())
}

/// Writes what one read gives.
fn pass_on<S: Source, W: Sink>(source: &mut S, sink: &mut W) -> Option<usize> {
    let mut room = [0; 3];
    let count = source.read(&mut room).ok()?;
    if count == 0 {
        return None;
    }
    sink.write(&room[..count]).ok()
}

/// Five bytes passed on in reads of at most three.
#[test]
fn what_is_read_is_written(rt: HostRuntime) -> Result<(), Fail> {
    let mut source = SteadySource::new(b"abcde".to_vec(rt.alloc())?);
    let mut sink = SteadySink::new(rt.alloc());
    let counts = [
        pass_on(&mut source, &mut sink),
        pass_on(&mut source, &mut sink),
        pass_on(&mut source, &mut sink),
    ];
    assert_eq!(rt;
        (counts, sink.bytes()),
        ([Some(3), Some(2), None], b"abcde".as_slice())
    );
    Ok(())
}

/// Takes one byte at each `None`, and fails with the kind of error at each other place.
#[derive(Drop)]
struct ScriptedWriter<'a>(&'a [Option<ErrorKind>]);

impl Write for ScriptedWriter<'_> {
    fn write(&mut self, buf: &[u8]) -> io::Result<usize> {
        let [first, others @ ..] = self.0 else {
            return Ok(0);
        };
        self.0 = others;
        match first {
            None => Ok(buf.len().min(1)),
            Some(kind) => Err(io::Error::new(*kind, "scripted")),
        }
    }

    fn flush(&mut self) -> io::Result<()> {
        Ok(())
    }
}

/// Four writes over a writer that takes a byte, is interrupted twice, takes a byte, fails, and then takes nothing.
#[test]
fn an_interrupted_write_goes_on_and_other_errors_and_a_full_device_are_faults(rt: HostRuntime) {
    let mut sink = StdSink::new(ScriptedWriter(&[
        None,
        Some(ErrorKind::Interrupted),
        Some(ErrorKind::Interrupted),
        None,
        Some(ErrorKind::OutOfMemory),
    ]));
    let written = [
        sink.write(b"abc"),
        sink.write(b"abc"),
        sink.write(b"abc"),
        sink.write(b"abc"),
    ];
    assert_eq!(rt;
        written,
        [
            Ok(1),
            Ok(1),
            Err(DeviceFault::Failed),
            Err(DeviceFault::Failed),
        ]
    );
}

/// The answers of two writes through a sink over this writer.
fn written_through(writer: &mut Vec<u8>) -> [Result<usize, DeviceFault>; 2] {
    let mut sink = StdSink::new(writer);
    [sink.write(b"ab"), sink.write(b"c")]
}

/// A vector as a writer: the bytes of two writes, in their order.
#[test]
fn a_vector_tells_what_was_written(rt: HostRuntime) {
    let mut bytes = Vec::new(rt.alloc());
    let answers = written_through(&mut bytes);
    assert_eq!(rt;
        (answers, bytes.as_slice()),
        ([Ok(2), Ok(1)], b"abc".as_slice())
    );
}

/// Gives one byte for each number, and fails with the kind of error at each other place.
#[derive(Drop)]
struct ScriptedReader<'a>(&'a [Result<u8, ErrorKind>]);

impl Read for ScriptedReader<'_> {
    fn read(&mut self, buf: &mut [u8]) -> io::Result<usize> {
        let [first, others @ ..] = self.0 else {
            return Ok(0);
        };
        self.0 = others;
        match (first, buf) {
            (Ok(byte), [front, ..]) => {
                *front = *byte;
                Ok(1)
            }
            (Ok(_), []) => Ok(0),
            (Err(kind), _) => Err(io::Error::new(*kind, "scripted")),
        }
    }
}

/// Four reads over a reader that gives a byte, fails, is interrupted twice, gives a byte, and ends.
#[test]
fn an_interrupted_read_goes_on_and_other_errors_are_faults(rt: HostRuntime) {
    let mut source = StdSource::new(ScriptedReader(&[
        Ok(7),
        Err(ErrorKind::Other),
        Err(ErrorKind::Interrupted),
        Err(ErrorKind::Interrupted),
        Ok(9),
    ]));
    let mut out = [0; 3];
    let reads = [
        read(&mut source, &mut out),
        read(&mut source, &mut out),
        read(&mut source, &mut out),
        read(&mut source, &mut out),
    ];
    assert_eq!(rt;
        reads,
        [
            (Ok(1), [7, 0, 0]),
            (Err(Failed), [7, 0, 0]),
            (Ok(1), [9, 0, 0]),
            (Ok(0), [9, 0, 0]),
        ]
    );
}

/// A slice of four bytes as a reader: three are read, then the one that is left, then none.
#[test]
fn a_slice_is_read_to_its_end(rt: HostRuntime) {
    let mut source = StdSource::new(b"abcd".as_slice());
    let mut out = [0; 3];
    let reads = [
        read(&mut source, &mut out),
        read(&mut source, &mut out),
        read(&mut source, &mut out),
    ];
    assert_eq!(rt;
        reads,
        [(Ok(3), *b"abc"), (Ok(1), *b"dbc"), (Ok(0), *b"dbc")]
    );
}

/// A file of which each call answers what is next in a list: that many bytes, each 7, or an error.
#[derive(Drop)]
struct ScriptedFile<'a> {
    answers: &'a [Result<usize, ErrorKind>],
    calls: Cell<usize>,
}

impl ScriptedFile<'_> {
    fn answer(&self) -> io::Result<usize> {
        let call = self.calls.get();
        self.calls.set(call.wrapping_add(1));
        match self.answers.get(call) {
            Some(Ok(count)) => Ok(*count),
            Some(Err(kind)) => Err(io::Error::new(*kind, "scripted")),
            None => Ok(0),
        }
    }
}

impl FileExt for ScriptedFile<'_> {
    fn read_at(&self, buf: &mut [u8], _offset: u64) -> io::Result<usize> {
        let count = self.answer()?.min(buf.len());
        let (front, _) = buf.split_at_mut(count);
        front.fill(7);
        Ok(count)
    }

    fn write_at(&self, buf: &[u8], _offset: u64) -> io::Result<usize> {
        Ok(self.answer()?.min(buf.len()))
    }
}

/// What a read of three bytes and a write of three come to, each over a file of these answers.
fn answers_at(
    answers: &[Result<usize, ErrorKind>],
    at: u64,
) -> (Result<usize, Failed>, Result<(), Failed>)
    requires { at + 3 < 2 ^ 64 }
{
    let file = ScriptedFile {
        answers,
        calls: Cell::new(0),
    };
    let read = read_full(&file, at, &mut [0; 3]);
    file.calls.set(0);
    (read, write_full(&file, at, b"abc"))
}

/// Reads of three bytes and writes of three: in parts, interrupted, at the end, with an error, past the limit.
#[test]
fn interrupted_calls_go_on_and_other_errors_are_faults(rt: HostRuntime) {
    let interrupted = Err(ErrorKind::Interrupted);
    let full = Err(ErrorKind::StorageFull);
    let answers = [
        answers_at(&[Ok(2), interrupted, Ok(2)], 0),
        answers_at(&[Ok(2), interrupted, interrupted], 0),
        answers_at(&[Ok(1), full], 0),
        answers_at(&[Ok(3), full], MOST_BYTES - 3),
        answers_at(&[Ok(3), full], MOST_BYTES - 2),
        answers_at(&[full, full], MOST_BYTES + 1),
    ];
    assert_eq!(rt;
        answers,
        [
            (Ok(3), Ok(())),
            (Ok(2), Err(Failed)),
            (Err(Failed), Err(Failed)),
            (Ok(3), Ok(())),
            (Ok(2), Err(Failed)),
            (Ok(0), Err(Failed)),
        ]
    );
}

/// A disk over the file of this name, which is made where it isn't there.
fn open(rt: &HostRuntime, name: &str) -> io::Result<FileDisk> {
    let mut options = File::options();
    options.read(true).write(true).create(true);
    Ok(FileDisk::new(options.open(rt, name)?))
}

/// Whether a file is empty, takes two writes, a cut, a sync and a write more, and refuses a cut past its limit.
fn is_written(disk: &mut FileDisk) -> bool {
    let answers = [
        disk.len() == Ok(0),
        disk.write_at(0, b"abcdef").is_ok(),
        disk.write_at(2, b"CD").is_ok(),
        disk.cut(5).is_ok(),
        disk.sync().is_ok(),
        disk.write_at(1, &[0; 2]).is_ok(),
        disk.cut(MOST_BYTES) == Err(DeviceFault::Failed),
    ];
    answers == [true; 7]
}

/// How long the file is, what of four bytes from the third on is read, and how many bytes behind its end.
fn read_back(disk: &mut FileDisk) -> ([Result<u64, Failed>; 3], [u8; 4]) {
    let mut out = [9; 4];
    let answers = [
        disk.len(),
        disk.read_at(2, &mut out).map(|count| count as u64),
        disk.read_at(5, &mut [0; 4]).map(|count| count as u64),
    ];
    (answers, out)
}

/// What is written to a file is read from it by another disk over it.
#[test]
fn a_file_keeps_what_is_written(rt: HostRuntime) -> Result<(), Fail> {
    let _ = fs::remove_file(&rt, "file_disk_test");
    let mut disk = open(&rt, "file_disk_test")?;
    let is_written = is_written(&mut disk);
    let mut again = open(&rt, "file_disk_test")?;
    assert_eq!(rt;
        (is_written, read_back(&mut again)),
        (true, ([Ok(5), Ok(3), Ok(0)], *b"\0De\x09"))
    );
    fs::remove_file(&rt, "file_disk_test")?;
    Ok(())
}
