//! What the words of a command line ask of each program; of a network program, the words after its address and its
//! file. It depends on clap, which reads them: each program has one `Command`, and its mode comes from what clap
//! finds. A word that begins with a hyphen is refused first, so that clap meets no flag. `specs/Modes.antt` names
//! nothing of clap, so the crates above need not know it.
//! Proved: right words give exactly their mode and all others none, both from clap's own clauses; the only other answer
//! is out of memory, which never comes for words with a hyphen in front.
//! Side: both.
#![tactic(auto)]

mod count;
mod disk_mode;
mod found;
mod hyphen;
mod local_mode;
mod number;
mod owners;

pub use count::count_of;
pub use disk_mode::{DiskMode, disk_mode_of};
pub use local_mode::{LocalMode, local_mode_of};
pub use number::number_within;
pub use owners::{owner_of, owners_of};
