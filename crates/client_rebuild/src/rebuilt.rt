use crate::last::Last;
use client_registry::HashKeys;
use word_keys::MasterKey;

/// What the records of a client tell under its key: the numbers under which words are hashed, the marks of the keys of all epochs,
/// of which the last one's is that of this key, and the last record taken, if there is one.
#[derive(Drop)]
pub struct Rebuilt {
    pub key: MasterKey,
    pub hash_keys: HashKeys,
    pub marks: Vec<[u8; 16]>,
    pub last: Option<Last>,
}
