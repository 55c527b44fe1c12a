//! The world of a client and a server with their own calls, journals on disks in memory and a link of frames: `World::step` is one event,
//! such as a command, a delivery, a lost reply or a stop inside a call of a disk, and `run` is a list of them. It runs the store's own
//! client and server, and depends on `world_client` and `sse_world` for their calls, and on `world_grammar` for the frames.
//! Proved: each event leads from a world to the next by `world_model` under the store's rules; and of all that a crash may leave of both
//! disks, behind any list of events, what `world_rules` promises is so.
//! Not here: that the programs make these events, which is read.
//! Side: client.
#![tactic(auto)]

mod behind;
pub mod carry_out;
mod client_commands;
mod client_searches;
mod client_side;
mod client_starts;
mod client_stops;
mod command;
mod done;
mod event;
mod running;
mod sending;
mod whole_run;
mod world;

pub use behind::Behind;
pub use client_side::ClientSide;
pub use command::{Command, keeps_limits};
pub use done::Done;
pub use event::Event;
pub use running::Running;
pub use sending::send;
pub use whole_run::run;
pub use world::World;
