//! What a client keeps at the vault: its commands on texts, which of them it refuses, the frame and the record of each under its
//! keys, and what a session leaks and draws. It depends on `vault_server` for frames and the vault's step, on `word_keys` and
//! `keyed_fn` for slots, pads and tags, and on `client_registry` for hash keys. Texts aren't kept in memory.
//! Proved: a shelf follows its commands and refuses the first fault of a definition; a received text is given out only if its
//! tag is right; a rebuild takes records exactly if they open under the key. Laws: a session with a vault that keeps to its
//! step is what the simulator makes of leaks and draws, also if it resumes; each slot, pad and tag is named once; a get is
//! answered with what opens to its text; if put v has the identifier v + 1, a scan ends exactly at the number of puts.
//! Not here: sending, disks, and printed lines.
//! Side: client.
#![tactic(auto)]

mod carry_record;
mod rebuild;
mod record_fault;
mod records;
mod shelf;
mod shelf_fault;
mod text_buffer;
mod vault_command;
mod write_frame;

pub use rebuild::ShelfRebuild;
pub use record_fault::RecordFault;
pub use records::{read_mark_record, read_vault_record, write_mark_record, write_vault_record};
pub use shelf::Shelf;
pub use shelf_fault::ShelfFault;
pub use text_buffer::{Opened, TextBuffer};
pub use vault_command::VaultCommand;
pub use write_frame::write_vault_command;
