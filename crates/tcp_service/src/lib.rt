//! The connections of a server that serves one after the other: `Conns` gives them, `TcpConns` those that a listener
//! accepts, and `MemConns` those of scripts in memory. A connection is two halves, a source and a sink, since of one value
//! no clause could say that a read leaves what was written. `Incoming` holds what was read and not yet used, `more` reads
//! after it, `say` writes, and `ConnEnd` says how a connection ended. It depends on `sse_outside` and `outside_tcp`, and
//! knows no frame but the length of the longest one: what a frame means stands in the crates above, for lists and for texts.
//! A peer loses its connection if it is silent for 60 seconds, or takes two minutes for a frame or a reply; these limits
//! are `TcpConns`' own, and no proof speaks of them.
//! Proved: over any source and sink, which bytes were read and written, and whose count of faults rose; connections in
//! memory are those of their scripts, in order.
//! Not covered: what a socket does (tested by `.ci/served` and `.ci/tcp`).
//! Side: server.
#![tactic(auto)]

mod arrival;
mod conn_end;
mod conns;
mod duplex;
mod head;
mod incoming;
mod mem_conns;
mod script;
mod serve_fault;
mod tcp_conns;
mod writing;

pub use arrival::more;
pub use conn_end::ConnEnd;
pub use conns::Conns;
pub use duplex::Duplex;
pub use head::read_full;
pub use incoming::Incoming;
pub use mem_conns::MemConns;
pub use script::Script;
pub use serve_fault::ServeFault;
pub use tcp_conns::TcpConns;
pub use writing::say;
