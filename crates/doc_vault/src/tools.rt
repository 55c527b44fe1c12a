use keyed_fn::Keyed;
use std::alloc::Global;
use word_keys::VaultKeys;

/// What every command of a session is carried out with: the keyed function and the keys of the vault under it.
#[derive(Drop)]
pub struct Tools<'a, K: Keyed> {
    /// Where memory is taken.
    pub alloc: Global,
    /// The keyed function.
    pub keyed: &'a K,
    /// The keys of the vault, under that function.
    pub keys: VaultKeys,
}
