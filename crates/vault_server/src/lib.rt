//! The vault: encrypted texts in slots, which a server keeps for a client, each with its tag, and a journal of the updates
//! that made it on one file of a disk. It depends on `sse_journal` for what a crash leaves and on `sse_frames` for numbers
//! and faults; it knows no word and no key. An update is appended before it is acknowledged, and a record is its body.
//! Proved: a reader's value is in the grammar and spelled as the bytes read, and what it refuses is in no grammar;
//! `VaultServer::answer` answers by the vault's step, or is out of memory, or its disk failed; after any crash,
//! `VaultServer::start` has taken each acknowledged update and at most one more, or names what is wrong with the file.
//! Side: server.
#![tactic(auto)]

mod frame_reader;
mod frame_writer;
mod keeping;
mod numbers;
mod replay;
mod reply_reader;
mod reply_writer;
mod sealed;
mod server;
mod slots;
mod vault_answer;
mod vault_frame;
mod vault_open_fault;
mod vault_reply;

pub use frame_reader::read_vault_frame;
pub use frame_writer::write_vault_frame;
pub use numbers::MAX_BODY;
pub use reply_reader::read_vault_reply;
pub use reply_writer::write_vault_reply;
pub use server::VaultServer;
pub use vault_answer::VaultAnswer;
pub use vault_frame::VaultFrame;
pub use vault_open_fault::VaultOpenFault;
pub use vault_reply::VaultReply;
