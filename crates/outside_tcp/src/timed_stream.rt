use crate::frame_place::FramePlace;
use std::io;
use std::io::{ErrorKind, Read, Write};
use std::net::TcpStream;
use std::time::{Duration, Instant};

/// How long a read or a write may wait, in seconds.
const SILENCE: u64 = 60;

/// How long a frame may take to come once it has begun, and a reply to be taken, in seconds.
const WHOLE: u64 = 120;

/// What a peer sends. A read that waits 60 seconds fails, and so does one of a frame that isn't whole two minutes after it began,
/// however often a byte of it came.
#[derive(Drop)]
pub struct TimedReader {
    rt: HostRuntime,
    stream: TcpStream,
    place: FramePlace,
    /// When the frame began that isn't whole, where there is one.
    began: Option<Instant>,
}

/// What is sent to a peer. A write that waits 60 seconds fails, and so does one of a reply that isn't taken two minutes after its
/// first write, however often a byte of it was.
#[derive(Drop)]
pub struct TimedWriter {
    rt: HostRuntime,
    stream: TcpStream,
    /// When the reply began that isn't taken, where there is one.
    began: Option<Instant>,
}

impl TimedReader {
    /// Over this stream, of which nothing has passed.
    pub fn new(rt: &HostRuntime, stream: TcpStream) -> TimedReader {
        TimedReader {
            rt: *rt,
            stream,
            place: FramePlace::new(),
            began: None,
        }
    }
}

impl TimedWriter {
    /// Over this stream, of which nothing has passed.
    pub fn new(rt: &HostRuntime, stream: TcpStream) -> TimedWriter {
        TimedWriter {
            rt: *rt,
            stream,
            began: None,
        }
    }
}

impl Read for TimedReader {
    fn read(&mut self, buf: &mut [u8]) -> io::Result<usize> {
        let left = match self.began {
            Some(began) => time_left(&self.rt, began)?,
            None => Duration::from_secs(SILENCE),
        };
        self.stream.set_read_timeout(Some(left))?;
        let count = self.stream.read(buf)?;
        let begins = self.place.pass(&buf[..count]);
        if self.place.is_between() {
            self.began = None;
        } else if begins {
            self.began = Some(Instant::now(&self.rt)?);
        }
        Ok(count)
    }
}

impl Write for TimedWriter {
    /// A reply is written by one call, and by others for what the one before didn't take.
    fn write(&mut self, buf: &[u8]) -> io::Result<usize> {
        let began = match self.began {
            Some(began) => began,
            None => Instant::now(&self.rt)?,
        };
        self.began = Some(began);
        self.stream
            .set_write_timeout(Some(time_left(&self.rt, began)?))?;
        let count = self.stream.write(buf)?;
        if count == buf.len() {
            self.began = None;
        }
        Ok(count)
    }

    fn flush(&mut self) -> io::Result<()> {
        Ok(())
    }
}

/// How long a call may wait for what began then.
fn time_left(rt: &HostRuntime, began: Instant) -> io::Result<Duration> {
    match Duration::from_secs(WHOLE).checked_sub(began.elapsed(rt)?) {
        Some(left) if !left.is_zero() => Ok(left.min(Duration::from_secs(SILENCE))),
        _ => Err(io::Error::from(ErrorKind::TimedOut)),
    }
}
