//! Tests of the crates up to level 3 as their callers see them, one file for each crate. They are a crate of their
//! own, since a crate with tests is proved twice.
//! Tested: values of standards and of independent programs, and with enough memory one call at least of each function
//! that takes memory.
//! Side: client.
#![tactic(auto)]

#[cfg(test)]
mod devices;
#[cfg(test)]
mod disks;
#[cfg(test)]
mod documents;
#[cfg(test)]
mod frames;
#[cfg(test)]
mod hmac_vectors;
#[cfg(test)]
mod keyed_functions;
#[cfg(test)]
mod keystream;
#[cfg(test)]
mod layouts;
#[cfg(test)]
mod line_reader;
#[cfg(test)]
mod made_words;
#[cfg(test)]
mod packed_lists;
#[cfg(test)]
mod script_lines;
#[cfg(test)]
mod tables;
#[cfg(test)]
mod tokens;
