//! Brings back every text of a vault from the key alone: `vault_restore` reads a key, asks the server for its next number n, fetches
//! slots 0 to n - 1, and prints each text whose tag is right. It reads and makes no journal, and sends no update. It depends
//! on `doc_vault` for the key line, for asking and for printing, on `vault_shelf` for decrypting, on `vault_link` for the
//! server's replies, and on `vault_script` for lines. Put v has the identifier v + 1.
//! Proved: over every link, a printed text is what its slot's reply decrypts to under a right tag, slots are fetched in order, and
//! the end tells whether n fits what they hold. If the vault stands as a client with identifiers in order left it, the lines are
//! the texts that are there, in the order of their puts. The status names the cause of a stop.
//! Not covered: which text is missing if the server lost one; two lost texts may look like a put and its drop; nothing may go on
//! from a restore.
//! Side: client.
#![tactic(auto)]

mod judge;
mod key_script;
mod next_number;
mod printing;
mod restore;
mod scan;
mod slot;
mod whole;

pub use restore::restore_texts;
pub use whole::vault_restore;
