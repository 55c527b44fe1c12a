ghost use Rattle.std.specs.Prelude.{◌≡◌, ◌≤◌, IfOk, IfSome, length};
ghost use Rattle.sse_frames.specs.Frames.{InGrammar, frame_bytes};
ghost use Rattle.sse_frames.specs.FrameViews.{frame_view};

use crate::frames::{BEGIN, DICT, END, HELLO, SEARCH};
use keyed_fn::Toy;
use outside_memory_disk::SteadyDisk;
use server_tables::BucketTables;
use sse_frames::{Frame, REPLY_ROOM, read_frame};
use sse_link::{Link, Mark, Passed, SteadyStoreLoopback};
use sse_server::Store;
use std::alloc::{AllocError, Global};
use std::test::Fail;

/// What is sent in a row to a new server: a search before there is a setup, a setup, and a search.
const SENT: [&[u8]; 7] = [SEARCH, HELLO, BEGIN, DICT, END, BEGIN, SEARCH];

/// What comes back, and then all that passed: the mark of each frame before its bytes.
const ANSWERED: &str = "\
000000018a
000000058100000000
000000058200000000
000000058200000001
000000058200000002
000000058300000003
0000000c850100010000000000000001
stepped 000000a108c3c4c5c6c7c8c9cacbcccdcecfd0d1d2d3d4d5d6d7d8d9dadbdcdddedfe0e1e2c4c5c6c7c8c9cacbcccdcecfd0d1d2d3d4d5d6d7d8d9dadbdcdddedfe0e1e2e3c5c6c7c8c9cacbcccdcecfd0d1d2d3d4d5d6d7d8d9dadbdcdddedfe0e1e2e3e4c6c7c8c9cacbcccdcecfd0d1d2d3d4d5d6d7d8d9dadbdcdddedfe0e1e2e3e4e5c7c8c9cacbcccdcecfd0d1d2d3d4d5d6d7d8d9dadbdcdddedfe0e1e2e3e4e5e6
received 000000018a
stepped 0000000101
received 000000058100000000
stepped 000000110200000000000100010000000100000000
received 000000058200000000
stepped 00000022030000000100090001c3c5c7c9cbcdcfd1d3d5d7d9dbdddfe1c4c5c6c7c8c9cacbcd
received 000000058200000001
stepped 000000050500000002
received 000000058200000002
stepped 000000110200000000000100010000000100000000
received 000000058300000003
stepped 000000a108c3c4c5c6c7c8c9cacbcccdcecfd0d1d2d3d4d5d6d7d8d9dadbdcdddedfe0e1e2c4c5c6c7c8c9cacbcccdcecfd0d1d2d3d4d5d6d7d8d9dadbdcdddedfe0e1e2e3c5c6c7c8c9cacbcccdcecfd0d1d2d3d4d5d6d7d8d9dadbdcdddedfe0e1e2e3e4c6c7c8c9cacbcccdcecfd0d1d2d3d4d5d6d7d8d9dadbdcdddedfe0e1e2e3e4e5c7c8c9cacbcccdcecfd0d1d2d3d4d5d6d7d8d9dadbdcdddedfe0e1e2e3e4e5e6
received 0000000c850100010000000000000001
";

/// The frame that all of the bytes are.
fn whole(bytes: &[u8]) -> Option<Frame<'_>>
    ensures grammar { IfSome result (λ frame. InGrammar (frame_view frame)) }
    ensures spelled { IfSome result (λ frame. bytes.now ≡ frame_bytes (frame_view frame)) }
{
    match read_frame(bytes) {
        Ok(Some((frame, n))) => {
            if n == bytes.len() {
                return Some(frame);
            }
            None
        }
        Ok(None) => None,
        Err(_) => None,
    }
}

/// Sends bytes that are a frame and receives the reply, whose length it says; else which of the calls failed.
fn exchange<L: Link>(link: &mut L, bytes: &[u8], out: &mut [u8]) -> Result<usize, &'static str>
    requires { 65544 ≤ length out.old }
    ensures { IfOk result (λ n. n ≤ 65544) }
{
    let Some(_frame) = whole(bytes) else {
        return Err("no frame");
    };
    match link.send(bytes) {
        Ok(()) => {}
        Err(_) => return Err("not sent"),
    }
    match link.recv(out) {
        Ok(n) => Ok(n),
        Err(_) => Err("not received"),
    }
}

/// What comes back to a frame over a link: the reply in hexadecimal digits.
fn reply<L: Link>(alloc: Global, link: &mut L, bytes: &[u8]) -> Result<String, AllocError> {
    let mut out = [0; REPLY_ROOM];
    match exchange(link, bytes, &mut out) {
        Ok(n) => hex::encode(alloc, &out[..n]),
        Err(why) => String::from_str(alloc, why),
    }
}

/// The same of frames in a row, a line for each.
fn replies<L: Link>(alloc: Global, link: &mut L, frames: &[&[u8]]) -> Result<String, AllocError> {
    let mut lines = String::new(alloc);
    for bytes in frames {
        lines.push_str(reply(alloc, link, *bytes)?.as_str())?;
        lines.push_str("\n")?;
    }
    Ok(lines)
}

/// What passed, a line for each frame and each reply.
fn passed_lines(alloc: Global, passed: &[Passed]) -> Result<String, AllocError> {
    let mut lines = String::new(alloc);
    for event in passed {
        let (way, bytes) = match event {
            Passed::Sent { bytes, mark } => (way_of(*mark), bytes),
            Passed::Received(bytes) => ("received ", bytes),
        };
        lines.push_str(way)?;
        lines.push_str(hex::encode(alloc, bytes.as_slice())?.as_str())?;
        lines.push_str("\n")?;
    }
    Ok(lines)
}

/// What is told of a frame that was sent.
fn way_of(mark: Mark) -> &'static str {
    match mark {
        Mark::Unknown => "sent ",
        Mark::Stepped => "stepped ",
        Mark::LackedMemory => "lacked memory ",
        Mark::StoreFailed => "not stored ",
    }
}

/// What comes back to frames over a link to a store whose disk never fails, and then all that passed.
fn over_a_store(alloc: Global, frames: &[&[u8]]) -> Result<String, AllocError> {
    let mut disk = SteadyDisk::new(alloc);
    match Store::start(alloc, BucketTables::new(alloc), &mut disk) {
        Ok(store) => {
            let mut link = SteadyStoreLoopback::new(alloc, Toy, store, disk);
            let replies = replies(alloc, &mut link, frames);
            let told = and_passed(alloc, replies, link.transcript());
            drop(link);
            told
        }
        Err(_) => String::from_str(alloc, "not started"),
    }
}

/// Lines that came back, and then those of all that passed.
fn and_passed(
    alloc: Global,
    lines: Result<String, AllocError>,
    passed: &[Passed],
) -> Result<String, AllocError> {
    let mut lines = lines?;
    lines.push_str(passed_lines(alloc, passed)?.as_str())?;
    Ok(lines)
}

/// A setup and searches before and behind it, and a frame that was taken.
#[test]
fn a_store_behind_a_link(rt: HostRuntime) -> Result<(), Fail> {
    let told = over_a_store(rt.alloc(), &SENT)?;
    assert_eq!(rt; told.as_str(), ANSWERED);
    Ok(())
}
