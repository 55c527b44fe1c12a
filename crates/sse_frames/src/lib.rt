//! All that client and server send each other: frames and replies as values, as bytes, and read from bytes up to the
//! first fault from the left. Client, server and link share it, so it depends on no crate that knows a word or a key.
//! A writer takes only values of the grammar, rising labels included, so that no client can send what a server
//! refuses to read.
//! Proved: a reader's value is in the grammar and spelled as the bytes read; a writer writes the bytes of
//! specs/Frames.antt and specs/Replies.antt; each value has one spelling.
//! Not here: what a frame does (`server_core`) and where bytes go (`sse_link`).
//! Side: both.
#![tactic(auto)]

mod fault;
mod fields;
mod frame;
mod frame_reader;
mod frame_writer;
mod front;
mod head;
mod items;
mod kinds;
mod limits;
mod put;
mod reply;
mod reply_reader;
mod reply_writer;

pub use fault::FrameFault;
pub use frame::Frame;
pub use frame_reader::{read_body, read_frame};
pub use frame_writer::{search_frame, write_frame, write_frame_into};
pub use items::Items;
pub use limits::{
    ADDED_LEN, BLOCKS_PER_FRAME, ENTRIES_PER_FRAME, FRAME_ROOM, LABEL_LEN, MAX_B, MAX_BIG,
    MAX_CHANGES, MAX_FRAME_BODY, MAX_INDEX, MAX_NUMBER, MAX_REPLY_BODY, PAGE_LEN, REPLY_ROOM,
    TOKEN_LEN,
};
pub use reply::Reply;
pub use reply_reader::{read_reply, read_whole_reply};
pub use reply_writer::{write_page, write_reply};
pub use std::alloc::AllocError as NoMemory;
