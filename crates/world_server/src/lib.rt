//! The server of a world: a store on a disk in memory that may stop inside a call. It handles the bytes of one frame and
//! starts from its disk, and says in the words of `world_model` what it then has: which frames it took, which one is in
//! doubt, and what it replies. It stands on `sse_server` for the store and on `world_disks` for stops, and knows no word and
//! no key.
//! Proved: the server acknowledges a frame only if it took it and no stop was among the calls of its disk; else it replies
//! by its step, or it has stopped, and the frame is there or not.
//! Side: server.
#![tactic(auto)]

mod gather;
mod handled;
mod opened;
mod question;
mod replies;
mod server_side;
mod update;
mod whole_frame;

pub use handled::{Handled, handle};
pub use opened::open;
pub use replies::Replies;
pub use server_side::{Delivered, ServerSide, after_failure, later};
