//! A server that lasts: its state, with a journal of the frames that made it on one file of a disk. It depends on
//! `server_core` for what a frame does and on `sse_journal` for what a crash leaves; it knows no word and no key. A
//! frame is prepared, then appended, then applied and acknowledged: a refused frame leaves nothing on the disk, and
//! whatever is applied is there. After a failed append the store takes no update until a restart, which finds out
//! what the file holds. A record is a frame's body, without its length; searches (`Store::walk`, `Store::fill`) don't
//! touch the disk.
//! Proved: `Store::handle` answers by the server's step, or is out of memory, or its disk failed; after any crash,
//! `Store::start` has taken each acknowledged frame and at most one more, or names what is wrong with the file.
//! Side: server.
#![tactic(auto)]

mod buffers;
mod kept_body;
mod open_fault;
mod replay;
mod store;
mod store_answer;

pub use buffers::Buffers;
pub use open_fault::OpenFault;
pub use store::Store;
pub use store_answer::StoreAnswer;
