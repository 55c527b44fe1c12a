//! The server's step: takes one frame, changes the tables, answers. It holds labels, encrypted cells and revocation
//! numbers, never a word or the master key, and depends on no crate that knows them. `sse_frames` has the frames,
//! `server_tables` what is kept, `search_token` what a token decrypts, `two_level` the layout of a list. A search is
//! a walk that fills one page at a time and takes no memory. The whole list is decoded once before its first page
//! goes out, so that no answer breaks off at a bad list; a walk knows whether it is over, but keeps no count, which
//! would cost each revocation number twice.
//! Proved: `Server::handle` is `step` of specs/Step.antt, or answers `NoMemory` and changes nothing; the pages of a
//! walk, joined, are the list of the search.
//! Not here: bytes (`sse_frames`), carrying them (`sse_link`) and a disk (`sse_server`).
//! Side: server.

#![tactic(auto)]

mod additions;
mod answer;
mod blocks;
mod cause;
mod entries;
mod group;
mod numbers;
mod pages;
mod places;
mod refuse;
mod revoked_numbers;
mod server;
mod setup_parts;
mod spot;
mod stage;
mod walk;
mod walk_fault;

pub use answer::Answer;
pub use refuse::Refuse;
pub use server::Server;
pub use stage::Stage;
pub use walk::{First, Walk};
pub use walk_fault::WalkFault;
