use crate::line_reader::lines_of;
use sse_frames::{
    FRAME_ROOM, FrameFault, Items, LABEL_LEN, NoMemory, REPLY_ROOM, TOKEN_LEN, read_body,
    read_frame, read_reply, read_whole_reply, search_frame, write_frame, write_frame_into,
    write_page, write_reply,
};
use sse_script::Fields;
use std::alloc::Global;
use std::test::Fail;

/// Bytes in hexadecimal digits, and what reading them as a frame answers: how many of them it takes, `part` where they are a
/// part of a frame, or the fault with its number; by two independent readers of the same formats. A line that begins with #
/// says what the rows after it try.
const FRAMES: &[u8] = b"\
0000000101 5
# bytes behind the frame
00000001010000 5
000000 part
# body not whole
0000000501 part
00000000 length 0
00100001 length 1048577
# the longest body, of which one byte is there
0010000001 part
0000000109 kind 9
0000000100 kind 0
000000020100 body 1
0000000505ffffffff body 1
0000000405000000 body 1
00000027070000000400026161616161616161616161616161616161616161616161616161616161616161 body 23
# SetupBegin: b, B, m and a out of range
000000110200000000000000010000000100000000 body 5
000000110200000000004001010000000100000000 body 7
000000110200000000004001000010000100000000 body 9
000000110200000000004001000010000000100001 body 13
# SetupDict: a width that no b has, a count out of range, a label below the one before it, a cell cut short
000000090300000001000a0001 body 5
00000009030000000102090001 body 5
00000009030000000100090000 body 7
00000009030000000100090401 body 7
0000003b0300000001000900026262626262626262626262626262626278787878787878787861616161616161616161616161616161787878787878787878 body 34
00000021030000000100090001616161616161616161616161616161617878787878787878 body 25
# SetupArray: a width that no B has, a count out of range, two blocks, the second one cut short, a byte behind the last
00000012040000000200090001787878787878787878 body 5
00000009040000000200000001 body 5
00000009040000000208080001 body 5
00000009040000000200080000 body 7
00000009040000000200080101 body 7
0000001904000000020008000278787878787878787878787878787878 29
000000140400000002000800027878787878787878787878 body 17
00000012040000000200080001787878787878787878 body 17
# the last number
0000000505fffffffe 9
# Add: the number, either count or both out of range, a count cut short, equal labels, a text or number cut short, falling numbers, a byte behind the last
0000000906ffffffff00000000 body 1
00000009060000000310010000 body 5
00000009060000000310000001 body 7
00000006060000000300 body 5
00000039060000000300020000616161616161616161616161616161617878787878787878616161616161616161616161616161617878787878787878 body 33
0000001c06000000030001000061616161616161616161616161616161787878 body 25
00000024060000000300010001616161616161616161616161616161617878787878787878616161 body 33
000000410600000003000100026363636363636363636363636363636378787878787878786262626262626262626262626262626261616161616161616161616161616161 body 49
000000410600000003000100026363636363636363636363636363636378787878787878786161616161616161616161616161616162626262626262626262626262626262 69
0000002206000000030001000061616161616161616161616161616161787878787878787878 body 33
# Delete: a count out of range, two numbers, the second one cut short, a byte behind the last
0000000707000000041001 body 5
00000027070000000400026161616161616161616161616161616162626262626262626262626262626262 43
000000260700000004000261616161616161616161616161616161626262626262626262626262626262 body 23
00000018070000000400016161616161616161616161616161616162 body 23
# Search: a token cut short
00000003087878 body 1
";

/// The same of replies.
const REPLIES: &[u8] = b"\
0000000581ffffffff 9
0000000582ffffffff body 1
0000000582fffffffe 9
0000000583ffffffff 9
00000006840400000000 body 1
00000006840000000000 body 1
00000006840300000007 10
000000058403000000 body 2
0000000c850100010000000000000001 16
0000000c850200010000000000000001 body 1
0000000c850000010000000000000001 body 2
0000000c850100010000000000000000 body 4
0000000485012001 body 2
0000000b8501000100000000000000 body 4
0000000d85010001000000000000000100 body 12
0000000186 5
0000000187 5
0000000188 5
000000028903 6
000000028904 body 1
000000028900 body 1
000000028a00 body 1
000000018a 5
00010005 length 65541
00000000 length 0
0000000101 kind 1
000000018b kind 139
";

/// The frames of sessions with the keyed function that adds bytes up, and those of a document without words, in hexadecimal
/// digits.
const SENT: &[u8] = b"\
0000000101
000000110200000000000100010000000100000000
00000022030000000100090001c3c5c7c9cbcdcfd1d3d5d7d9dbdddfe1c4c5c6c7c8c9cacbcd
000000050500000002
00000019040000000200100001c5c6c7c8c9cacbcdcdcecfd0d1d2d3d6
00000021060000000300010000c5c7c9cbcdcfd1d3d5d7d9dbdddfe1e3c6c7c8c9cacbccc8
0000001707000000040001eff1f3f5f7f9fbfdff01030507090b0d
00000031060000000500010001c9cbcdcfd1d3d5d7d9dbdddfe1e3e5e7cacbcccdcecfd0d4eff1f3f5f7f9fbfdff01030507090b0d
00000021060000000300010000c5c7c9cbcdcfd1d3d5d7d9dbdddfe1e3c6c7c8c9cacbcccb
00000009060000000300000000
0000000707000000040000
000000a108c3c4c5c6c7c8c9cacbcccdcecfd0d1d2d3d4d5d6d7d8d9dadbdcdddedfe0e1e2c4c5c6c7c8c9cacbcccdcecfd0d1d2d3d4d5d6d7d8d9dadbdcdddedfe0e1e2e3c5c6c7c8c9cacbcccdcecfd0d1d2d3d4d5d6d7d8d9dadbdcdddedfe0e1e2e3e4c6c7c8c9cacbcccdcecfd0d1d2d3d4d5d6d7d8d9dadbdcdddedfe0e1e2e3e4e5c7c8c9cacbcccdcecfd0d1d2d3d4d5d6d7d8d9dadbdcdddedfe0e1e2e3e4e5e6
";

/// The replies of the same sessions, and one of each other kind.
const ANSWERED: &[u8] = b"\
000000058100000000
000000058200000000
000000058200000001
000000058200000002
0000000c850100010000000000000001
000000058300000003
00000006840300000007
0000000485010000
0000000186
0000000187
0000000188
000000028901
000000018a
";

/// What reading answers, as the tables have it.
fn answer(alloc: Global, outcome: Result<Option<usize>, FrameFault>) -> Result<String, NoMemory> {
    match outcome {
        Ok(Some(count)) => format!(in alloc; "{count}"),
        Ok(None) => String::from_str(alloc, "part"),
        Err(FrameFault::BadLength(length)) => format!(in alloc; "length {length}"),
        Err(FrameFault::BadKind(kind)) => format!(in alloc; "kind {kind}"),
        Err(FrameFault::BadBody(place)) => format!(in alloc; "body {place}"),
    }
}

/// How many of the bytes a frame takes, or a reply.
fn taken(bytes: &[u8], is_reply: bool) -> Result<Option<usize>, FrameFault> {
    if is_reply {
        read_reply(bytes).map(|found| found.map(|(_, count)| count))
    } else {
        read_frame(bytes).map(|found| found.map(|(_, count)| count))
    }
}

/// Appends a row of a table, with the answer that reading its bytes gives.
fn push_row(alloc: Global, table: &mut Vec<u8>, row: &[u8], is_reply: bool) -> Option<()> {
    let mut fields = Fields::new(row);
    let digits = fields.next().unwrap_or(b"");
    if digits == b"#".as_slice() {
        table.extend_from_slice(row).ok()?;
    } else {
        let bytes = hex::decode(alloc, digits).ok()?;
        let answer = answer(alloc, taken(&bytes, is_reply)).ok()?;
        table.extend_from_slice(digits).ok()?;
        table.push(b' ').ok()?;
        table.extend_from_slice(answer.as_bytes()).ok()?;
    }
    table.push(b'\n').ok()
}

/// A table, with the answers that reading gives in the place of its own.
fn answered(alloc: Global, table: &[u8], is_reply: bool) -> Option<Vec<u8>> {
    let mut answered = Vec::new(alloc);
    for (_, row) in lines_of(alloc, table)?.iter() {
        push_row(alloc, &mut answered, row, is_reply)?;
    }
    Some(answered)
}

/// Each row of the two tables, read.
#[test]
fn reads_what_the_formats_say(rt: HostRuntime) -> Result<(), Fail> {
    let frames = answered(rt.alloc(), FRAMES, false).ok_or("no frames")?;
    let replies = answered(rt.alloc(), REPLIES, true).ok_or("no replies")?;
    assert_eq!(rt; frames.as_slice(), FRAMES);
    assert_eq!(rt; replies.as_slice(), REPLIES);
    assert!(rt; read_body(&[1]).is_ok());
    Ok(())
}

/// Whether each front of the bytes that is shorter is a part of a frame.
fn is_part_before_its_end(bytes: &[u8]) -> bool {
    for count in 0..bytes.len() {
        if !matches!(read_frame(&bytes[..count]), Ok(None)) {
            return false;
        }
    }
    true
}

/// Whether a frame, all of the bytes, is written as these bytes in both ways; not where memory is wanting.
fn is_written_again(alloc: Global, bytes: &[u8]) -> bool {
    let Ok(Some((frame, count))) = read_frame(bytes) else {
        return false;
    };
    let mut appended = Vec::new(alloc);
    if write_frame(&frame, &mut appended).is_err() {
        return false;
    }
    let Ok(mut room) = vec![in alloc; 0u8; count] else {
        return false;
    };
    let written = write_frame_into(&frame, &mut room);
    appended.as_slice() == bytes && written == count && room.as_slice() == bytes
}

/// Whether a reply, all of the bytes, is written as these bytes.
fn is_answered_again(alloc: Global, bytes: &[u8]) -> bool {
    let Some(reply) = read_whole_reply(bytes) else {
        return false;
    };
    let Ok(mut room) = vec![in alloc; 0u8; REPLY_ROOM] else {
        return false;
    };
    let count = write_reply(&reply, &mut room);
    &room[..count] == bytes
}

/// The rows whose bytes are written as they are read: of frames, where no front of them is whole either.
fn written_again(alloc: Global, table: &[u8], is_reply: bool) -> Option<Vec<u8>> {
    let mut rows = Vec::new(alloc);
    for (_, row) in lines_of(alloc, table)?.iter() {
        let bytes = hex::decode(alloc, row.as_slice()).ok()?;
        let holds = if is_reply {
            is_answered_again(alloc, &bytes)
        } else {
            is_part_before_its_end(&bytes) && is_written_again(alloc, &bytes)
        };
        if holds {
            rows.extend_from_slice(row).ok()?;
            rows.push(b'\n').ok()?;
        }
    }
    Some(rows)
}

/// Each frame and each reply of the sessions.
#[test]
fn frames_and_replies_are_written_as_they_are_read(rt: HostRuntime) -> Result<(), Fail> {
    let sent = written_again(rt.alloc(), SENT, false).ok_or("no frames")?;
    let received = written_again(rt.alloc(), ANSWERED, true).ok_or("no replies")?;
    assert_eq!(rt; sent.as_slice(), SENT);
    assert_eq!(rt; received.as_slice(), ANSWERED);
    Ok(())
}

/// The SetupDict frame of 1,024 entries with the widest cells, by rising labels.
fn longest_dict(alloc: Global) -> Result<Vec<u8>, NoMemory> {
    let mut bytes = Vec::new(alloc);
    bytes.extend_from_slice(b"\0\x08\x44\x09\x03\0\0\0\0\x02\x01\x04\0")?;
    for number in 0..1_024u16 {
        bytes.extend_from_slice(&number.to_be_bytes())?;
        bytes.extend_from_slice(&[7; LABEL_LEN + 511])?;
    }
    Ok(bytes)
}

/// The SetupArray frame of 256 of the widest blocks.
fn longest_array(alloc: Global) -> Result<Vec<u8>, NoMemory> {
    let mut bytes = Vec::new(alloc);
    bytes.extend_from_slice(b"\0\x08\0\x09\x04\0\0\0\0\x08\0\x01\0")?;
    for _ in 0..256 {
        bytes.extend_from_slice(&[7; 2_048])?;
    }
    Ok(bytes)
}

/// Both, read and written.
#[test]
fn frames_of_more_than_500_000_bytes_are_read_and_written(rt: HostRuntime) -> Result<(), Fail> {
    let alloc = rt.alloc();
    let dict = longest_dict(alloc)?;
    assert_eq!(rt; dict.len(), FRAME_ROOM);
    assert!(rt; is_written_again(alloc, &dict));
    assert!(rt; is_written_again(alloc, &longest_array(alloc)?));
    Ok(())
}

/// A page of two identifiers, and the first bytes of a search.
#[test]
fn writes_a_page_and_a_search(rt: HostRuntime) -> Result<(), Fail> {
    let mut room = vec![in rt.alloc(); 0u8; REPLY_ROOM]?;
    let count = write_page(true, &[1, 0x0203], &mut room);
    assert_eq!(rt;
        &room[..count],
        b"\0\0\0\x14\x85\x01\0\x02\0\0\0\0\0\0\0\x01\0\0\0\0\0\0\x02\x03".as_slice()
    );
    let frame = search_frame(&[7; TOKEN_LEN]);
    assert!(rt; frame.starts_with(b"\0\0\0\xa1\x08\x07"));
    Ok(())
}

/// Two items, in their order.
#[test]
fn items_grow_at_their_end(rt: HostRuntime) -> Result<(), Fail> {
    let mut items = Items::new(rt.alloc());
    items.push(7u8)?;
    items.push(9u8)?;
    assert_eq!(rt; items.as_slice(), [7, 9].as_slice());
    Ok(())
}
