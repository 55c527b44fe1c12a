//! The client's session: reads a script, keeps its words and documents to itself, sends frames over a link, and prints
//! what came back. It depends on `client_core` for what is sent and what a reply means, on `sse_script` and
//! `script_documents` for lines, on `bool_search` for queries, on `client_journal` and `client_recorder` for records,
//! and on the traits of link and devices. `sse_run` is all that a client program does; `run_on_disk` begins or resumes
//! a history on a disk; `run_over_server`, `run_over_store`, `run_in_process` and `run_on_bytes` are the same with a
//! server, a store, both files or a script in this process. A record is kept before the first frame of its command is
//! sent. First and resumed runs share one loop, and one function carries every kind of update, so each is proved once.
//! `renewal_run` carries out a `rebuild` line, after which the session goes on under the new key.
//! Proved: of a whole run the printed lines, frames, records, the cause of its stop and the status, over any link
//! (docs/PROMISES.md).
//! Side: client.
#![tactic(auto)]

mod exchange;
mod frame_exchange;
mod in_process;
mod kept_records;
mod lines;
mod on_disk;
mod over_store;
mod peer_fault;
mod query_run;
mod renewal_run;
mod reply_buffer;
mod resumed_run;
mod run;
mod search_run;
mod session;
mod tools;
mod update_answer;
mod update_run;

pub use in_process::{run_in_process, run_on_bytes};
pub use on_disk::run_on_disk;
pub use over_store::run_over_store;
pub use run::{run_over_server, sse_run};
