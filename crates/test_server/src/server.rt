use crate::frames::{ADD, ADD_AGAIN, BEGIN, DELETE, DICT, END, HELLO, SEARCH};
use keyed_fn::Toy;
use server_core::{Answer, Server};
use server_tables::{SortedTables, Tables};
use sse_frames::read_frame;
use std::alloc::{AllocError, Global};
use std::test::Fail;

// The first addition and the deletion again, under the next numbers.
const ADD_TAKEN: &[u8] =
    b"\x00\x00\x00\x21\x06\x00\x00\x00\x06\x00\x01\x00\x00\xc5\xc7\xc9\xcb\xcd\xcf\xd1\xd3\xd5\xd7\xd9\xdb\xdd\xdf\xe1\xe3\xc6\xc7\xc8\xc9\xca\xcb\xcc\xc8";

const DELETE_ONCE: &[u8] =
    b"\x00\x00\x00\x17\x07\x00\x00\x00\x06\x00\x01\xef\xf1\xf3\xf5\xf7\xf9\xfb\xfd\xff\x01\x03\x05\x07\x09\x0b\x0d";

const DELETE_TAKEN: &[u8] =
    b"\x00\x00\x00\x17\x07\x00\x00\x00\x07\x00\x01\xef\xf1\xf3\xf5\xf7\xf9\xfb\xfd\xff\x01\x03\x05\x07\x09\x0b\x0d";

/// Frames in a row, and what a new server answers to them.
const WHOLE: [&[u8]; 16] = [
    SEARCH,
    HELLO,
    BEGIN,
    ARRAY_EARLY,
    DICT,
    END,
    BEGIN,
    DELETE,
    ADD,
    ADD,
    DELETE,
    ADD_AGAIN,
    ADD_TAKEN,
    DELETE_ONCE,
    DELETE_TAKEN,
    SEARCH,
];

const ANSWERED: &str = "\
out of place
next 0
took 0
out of place
took 1
took 2
number 3
number 3
took 3
number 4
took 4
took 5
collision 2 at 0
took 6
collision 3 at 0
found 1
";

// A block of a setup that has none.
const ARRAY_EARLY: &[u8] =
    b"\x00\x00\x00\x11\x04\x00\x00\x00\x01\x00\x08\x00\x01\xc5\xc6\xc7\xc8\xc9\xca\xcb\xcd";

/// The identifiers of a page, as a line.
fn found(alloc: Global, ids: &[u64]) -> Result<String, AllocError> {
    let mut line = String::from_str(alloc, "found")?;
    for id in ids {
        line.push_str(format!(in alloc; " {id}")?.as_str())?;
    }
    Ok(line)
}

/// What a server answers to a frame, as a line.
fn answer<T: Tables>(
    alloc: Global,
    server: &mut Server<T>,
    bytes: &[u8],
) -> Result<String, AllocError> {
    let Ok(Some((frame, _))) = read_frame(bytes) else {
        return String::from_str(alloc, "no frame");
    };
    let mut page = [0; 2];
    match server.handle(&Toy, &frame, &mut page) {
        Answer::Next(next) => format!(in alloc; "next {next}"),
        Answer::Took(number) => format!(in alloc; "took {number}"),
        Answer::Number(next) => format!(in alloc; "number {next}"),
        Answer::Clash { what, place } => format!(in alloc; "collision {what} at {place}"),
        Answer::Found { count, walk } => {
            if walk.is_over() {
                found(alloc, &page[..count])
            } else {
                String::from_str(alloc, "more than a page")
            }
        }
        Answer::BadList => String::from_str(alloc, "no list"),
        Answer::NoMemory => String::from_str(alloc, "out of memory"),
        Answer::OutOfPlace => String::from_str(alloc, "out of place"),
    }
}

/// What it answers to frames in a row, a line each.
fn answers<T: Tables>(
    alloc: Global,
    server: &mut Server<T>,
    frames: &[&[u8]],
) -> Result<String, AllocError> {
    let mut lines = String::new(alloc);
    for bytes in frames {
        lines.push_str(answer(alloc, server, bytes)?.as_str())?;
        lines.push_str("\n")?;
    }
    Ok(lines)
}

/// The same of a new server.
fn answered(alloc: Global, frames: &[&[u8]]) -> Result<String, AllocError> {
    let mut server = Server::new(SortedTables::new(alloc));
    answers(alloc, &mut server, frames)
}

/// A setup, a search, an addition and a deletion, and what is refused between them.
#[test]
fn frames_in_a_row_are_answered(rt: HostRuntime) -> Result<(), Fail> {
    let answered = answered(rt.alloc(), &WHOLE)?;
    assert_eq!(rt; answered.as_str(), ANSWERED);
    Ok(())
}
