//! Carries a frame to a vault and brings its reply back: the trait `VaultLink`, over which the client of a vault is written,
//! and links in memory. Its ghost members let a contract speak of all that was sent and received, and of the server at the
//! other end. There is a loopback to a server in this process with its journal on a disk, and a link that plays back
//! replies, honest or not. It depends on `vault_server`, and knows no text and no key.
//! Proved: a loopback is honest: each reply is the vault's step, or out of memory, or a fault of its disk.
//! Not covered: a real connection.
//! Side: server.
#![tactic(auto)]

mod answering;
mod counts;
mod exchange;
mod link;
mod link_fault;
mod loopback;
mod reading;
mod scripted;
mod transcript;

pub use counts::{faults_after, one_more};
pub use exchange::VaultExchange;
pub use link::{MAX_REPLY_BODY, REPLY_ROOM, VaultLink};
pub use link_fault::LinkFault;
pub use loopback::VaultLoopback;
pub use reading::read_whole_reply;
pub use scripted::ScriptedVault;
