//! Where a client's disk and its link come from: the trait `Places`, over which the client's program is written, so that
//! a contract can say which file was opened, which address was called, in which order, and what was given back. It
//! depends on `sse_outside` for the trait of disk and on `outside_journal_file` for the system's files, and knows no word and no
//! key. Of a link it only asks that it can be let go, so the programs of the archive and of the vault both stand on it.
//! `SystemPlaces` has the system's files and connections over TCP, `MemPlaces` one disk and one link in memory.
//! Proved: `MemPlaces` gives its disk and its link to their own names only, and keeps what is given back as it is.
//! Not covered: that `SystemPlaces` opens the file and calls the address that it is asked for.
//! Side: client.
#![tactic(auto)]

mod mem_places;
mod places;
mod system_places;

pub use mem_places::MemPlaces;
pub use places::Places;
pub use system_places::{OverTcp, SystemPlaces};
