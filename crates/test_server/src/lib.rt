//! Tests of the server's side, its journal and its store as their callers see them, as far as no script and no
//! program reaches it. They are a crate of their own, since a crate with tests is proved twice.
//! Tested: frames in a row over sorted tables, walks of every shape of list by pages of any size, and frames that no
//! client sends, over a link to a store. Also reads of a journal at any place, and a store's start over a disk that
//! fails at each call and crashes.
//! Side: server.
#![tactic(auto)]

#[cfg(test)]
mod frames;
#[cfg(test)]
mod journal_reads;
#[cfg(test)]
mod links;
#[cfg(test)]
mod server;
#[cfg(test)]
mod store_starts;
#[cfg(test)]
mod walks;
