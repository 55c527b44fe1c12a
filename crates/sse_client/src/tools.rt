use keyed_fn::Keyed;
use std::alloc::Global;
use word_keys::PreparedMaster;

/// What every command of a session needs beside its link: the allocator, and the master key prepared for its keyed function. A
/// rebuild replaces the key.
#[derive(Drop)]
pub(crate) struct Tools<'a, K: Keyed> {
    pub(crate) alloc: Global,
    pub(crate) master: PreparedMaster<'a, K>,
}
