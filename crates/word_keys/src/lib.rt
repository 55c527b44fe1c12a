//! What only a client has: the master key, the keys that it gives for a word, and pads (keystream) that are used
//! once. It depends on `search_token` and on the words of `client_registry`; no crate of the server depends on it. A
//! command asks for the keys that it needs: two for an addition (`PlusKeys`), one for a deletion (`RevocationKey`),
//! five for a search. For a list it asks for label and pads (`ListPads`), and a setup for the keys of its dummies
//! (`DummyKey`). A vault of encrypted texts has three keys of its own (`VaultKeys`). No type prints a key or gives its bytes back: only a token has bytes, since only it goes to a
//! server.
//! Proved: each call gives the key formula of its name (`keyed_fn`, specs/KeyFormulas.antt,
//! specs/DummyFormulas.antt and specs/VaultFormulas.antt); `seal` XORs the pad that its slot names, and a slot can't be copied or dropped.
//! Not here: that no name is drawn twice, a law of the caller's own list of names.
//! Side: client.

#![tactic(auto)]

mod dummy_key;
mod list_pads;
mod master_key;
mod pad_slot;
mod place_key;
mod place_tags;
mod plus_keys;
mod prepared_master;
mod revocation_key;
mod vault_keys;

pub use dummy_key::DummyKey;
pub use list_pads::ListPads;
pub use master_key::MasterKey;
pub use pad_slot::{PadSlot, seal};
pub use place_key::PlaceKey;
pub use place_tags::PlaceTags;
pub use plus_keys::PlusKeys;
pub use prepared_master::PreparedMaster;
pub use revocation_key::RevocationKey;
pub use vault_keys::VaultKeys;
