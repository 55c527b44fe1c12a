//! A client of a world, with its journal on a disk in memory that may stop inside a call: its commands and renewals, its
//! start, what it sends and what it makes of an answer. It depends on `client_core` and `client_journal` for the client, and on
//! `world_disks` for the disk and its stop. After a stop inside the append of a renewal's record either of two keys may be the
//! last, so a start tries both.
//! Proved: over a history of epochs and in the phases of `world_model`, a command is refused for its fault, or recorded
//! before its frames are owed; the client that starts is that of the records that the disk gave; it sends the history's
//! frame of its number; and an answer, also the pages of a search, leads to the phase that it gives, or ends the client.
//! Not here: the server (`world_server`), of which it knows what a server replied.
//! Side: client.
#![tactic(auto)]

mod answers;
mod commanded;
mod commands;
mod records;
mod report;
mod sends;
mod starts;
mod state;
mod whole_answers;

pub use answers::{acknowledged, answered, greeted};
pub use commanded::Commanded;
pub use commands::{add, delete, renew, set_up};
pub use report::Report;
pub use sends::next_frame;
pub use starts::{StartedClient, start_client};
pub use state::{Gone, State};
pub use whole_answers::heard;
