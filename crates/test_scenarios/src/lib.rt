//! Tests of the client's crates above level 3 that no program can print as rows: values that no script reaches. They
//! are above every other crate, since a crate with tests is proved twice. Whole runs, over links and disks that fail
//! and over given replies, are rows of `tool_transcript` (`.ci/turns`).
//! Tested: keys of a word, the last counter and the last record, texts of faults, a reply that is no page, and the
//! worked examples of docs/LEAKAGE.md, byte for byte.
//! Side: client.
#![tactic(auto)]

#[cfg(test)]
mod bounds;
#[cfg(test)]
mod derived_keys;
#[cfg(test)]
mod fault_texts;
#[cfg(test)]
mod reply_pages;
#[cfg(test)]
mod worked_example;
