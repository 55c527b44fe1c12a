ghost use Rattle.std.specs.Prelude.{◌≡◌, ◌≤◌, ◌∷◌, length};
ghost use Rattle.client_registry.specs.HashNumbers.{hash_numbers};
ghost use Rattle.client_registry.specs.WordBytes.{word_bytes};
ghost use Rattle.keyed_fn.specs.KeyedFn.{keyed_fn};
ghost use Rattle.keyed_fn.specs.KeyFormulas.{list_label, mark_of, part_key, plain_key};
ghost use Rattle.keyed_fn.specs.VaultFormulas.{vault_secrets};
ghost use Rattle.search_token.specs.TokenKeys.{token_keys};
ghost use Rattle.word_keys.specs.HashNumbers.{numbers_of_key};
ghost use Rattle.word_keys.specs.KeyPair.{dummy_keys, plus_keys};
ghost use Rattle.word_keys.specs.PadName.{cell_name};

use crate::dummy_key::DummyKey;
use crate::list_pads::ListPads;
use crate::place_key::PlaceKey;
use crate::plus_keys::PlusKeys;
use crate::revocation_key::RevocationKey;
use crate::vault_keys::VaultKeys;
use client_registry::{HashKeys, Word};
use keyed_fn::{Keyed, PreparedKey, front_at, front_of};
use search_token::Token;
use std::marker::Model;

// The parts, by the number that stands in front of a word.

/// The part whose key gives the label of a word's list.
const LIST_LABEL: u8 = 1;

/// The part whose key gives the pads of a word's list.
const LIST_PADS: u8 = 2;

/// The part whose key gives the labels of a word's additions.
const PLUS_LABELS: u8 = 3;

/// The part whose key gives the pads of a word's additions.
const PLUS_PADS: u8 = 4;

/// The part whose key gives a word's revocation numbers.
const REVOCATIONS: u8 = 5;

/// The part whose key tags the places of a list's blocks.
const PLACES: u8 = 6;

/// The part whose key, for no word, begins with the key mark.
const MARK: u8 = 7;

/// The part whose key, for no word, gives the labels and tags of dummies.
const DUMMY_LABELS: u8 = 8;

/// The part whose key, for no word, gives the pads of dummies.
const DUMMY_PADS: u8 = 9;

/// The part whose key, for no word, gives the slots of a vault.
const VAULT_SLOTS: u8 = 10;

/// The part whose key, for no word, gives the pads of a vault.
const VAULT_PADS: u8 = 11;

/// The part whose key, for no word, gives the tags of a vault.
const VAULT_TAGS: u8 = 12;

/// The part whose key, for no word, begins with the numbers of the hasher.
const HASHING: u8 = 13;

/// The master key, prepared for the keyed function that it is held with: it gives a word's keys, each of them for one
/// value of the function. A contract sees the master key's bytes; nothing gives them back.
pub struct PreparedMaster<'a, K: Keyed> {
    keyed: &'a K,
    key: PreparedKey<K>,
}

impl<'a, K: Keyed> Model for PreparedMaster<'a, K> {
    ghost use Rattle.std.specs.Prelude.{ℕ, List};

    ghost Value = { List ℕ };

    ghost view = { λ master. master.key };
}

impl<K: Keyed> Drop for PreparedMaster<'_, K> {
    fn drop(self) {
        let PreparedMaster { keyed: _, key: _ } = self;
    }
}

impl<'a, K: Keyed> PreparedMaster<'a, K> {
    /// Prepares the 32 bytes of the key.
    pub(crate) fn new(keyed: &'a K, bytes: &[u8; 32]) -> PreparedMaster<'a, K>
        ensures { result ≡ bytes.now }
    {
        PreparedMaster {
            keyed,
            key: PreparedKey::new(keyed, bytes),
        }
    }

    /// The keyed function, for the keys and pads that the master key gave.
    pub fn keyed(&self) -> &'a K {
        self.keyed
    }

    // Promise P97 (caller): Every key, pad, label, tag and mark that the master key gives is the one in the key formulas.
    //   clauses: ensures; assumes: earlier calls, sizes in bounds; not: That no two texts get one pad and no two names one input of the functions: P148 and P168 say it of a
    //     history. That values look random is assumed.
    /// The search token of a word: its keys of the parts 1 to 5, for one who searches.
    pub fn token(&self, word: &Word) -> Token
        ensures { result ≡ token_keys (keyed_fn K.prf K.pad) self.now (word_bytes word.now) }
    {
        let word = word.bytes();
        Token::new([
            self.key_of_part(LIST_LABEL, word),
            self.key_of_part(LIST_PADS, word),
            self.key_of_part(PLUS_LABELS, word),
            self.key_of_part(PLUS_PADS, word),
            self.key_of_part(REVOCATIONS, word),
        ])
    }

    // Promise P97, also here; clauses: ensures
    /// The 16-byte label of a word's list, under its key of part 1.
    pub fn list_label(&self, word: &Word) -> [u8; 16]
        ensures { result ≡ list_label (keyed_fn K.prf K.pad) (part_key (keyed_fn K.prf K.pad) self.now 1 (word_bytes word.now)) }
    {
        front_at(self.keyed, &self.key_of_part(LIST_LABEL, word.bytes()), 0)
    }

    // Promise P97, also here; clauses: ensures
    /// The pads of a word's list under its key of part 2, from that of the cell on.
    pub fn list_pads(&self, word: &Word) -> ListPads
        ensures { result ≡ cell_name (part_key (keyed_fn K.prf K.pad) self.now 2 (word_bytes word.now)) }
    {
        ListPads::begin(self.key_of_part(LIST_PADS, word.bytes()))
    }

    // Promise P97, also here; clauses: ensures
    /// The keys of a word's additions: its keys of the parts 3 and 4.
    pub fn plus_keys(&self, word: &Word) -> PlusKeys
        ensures { result ≡ plus_keys (keyed_fn K.prf K.pad) self.now (word_bytes word.now) }
    {
        let label_key = self.key_of_part(PLUS_LABELS, word.bytes());
        let pad_key = self.key_of_part(PLUS_PADS, word.bytes());
        PlusKeys::new(&label_key, pad_key)
    }

    // Promise P97, also here; clauses: ensures
    /// The key of a word's revocation numbers: its key of part 5.
    pub fn revocation_key(&self, word: &Word) -> RevocationKey
        ensures { result ≡ part_key (keyed_fn K.prf K.pad) self.now 5 (word_bytes word.now) }
    {
        RevocationKey::new(&self.key_of_part(REVOCATIONS, word.bytes()))
    }

    // Promise P97, also here; clauses: ensures
    /// The place key of a word: its key of part 6, which never leaves the client.
    pub fn place_key(&self, word: &Word) -> PlaceKey
        ensures { result ≡ part_key (keyed_fn K.prf K.pad) self.now 6 (word_bytes word.now) }
    {
        PlaceKey::new(self.key_of_part(PLACES, word.bytes()))
    }

    // Promise P97, also here; clauses: ensures
    /// The keys of a setup's dummies: those of the parts 8 and 9, for no word, which never leave the client.
    pub fn dummy_key(&self) -> DummyKey
        ensures { result ≡ dummy_keys (keyed_fn K.prf K.pad) self.now }
    {
        let pad_key = self.key_of_part(DUMMY_PADS, &[]);
        DummyKey::new(&self.key_of_part(DUMMY_LABELS, &[]), pad_key)
    }

    // Promise P97, also here; clauses: ensures
    /// The keys of a vault: those of the parts 10, 11 and 12, for no word, which never leave the client.
    pub fn vault(&self) -> VaultKeys
        ensures { result ≡ vault_secrets (keyed_fn K.prf K.pad) self.now }
    {
        let pad_key = self.key_of_part(VAULT_PADS, &[]);
        VaultKeys::new(
            &self.key_of_part(VAULT_SLOTS, &[]),
            pad_key,
            &self.key_of_part(VAULT_TAGS, &[]),
        )
    }

    // Promise P97, also here; clauses: ensures
    /// The 16-byte key mark, by which a client knows again whether it was given the same key.
    pub fn mark(&self) -> [u8; 16]
        ensures { result ≡ mark_of (keyed_fn K.prf K.pad) self.now }
    {
        front_of(&self.key_of_part(MARK, &[]))
    }

    // Promise P97, also here; clauses: ensures
    /// The keys under which a client hashes its words and identifiers.
    pub fn hash_keys(&self) -> HashKeys
        ensures { hash_numbers result ≡ numbers_of_key (plain_key (keyed_fn K.prf K.pad) self.now 13) }
    {
        numbers_of(&self.key_of_part(HASHING, &[]))
    }

    /// The key of a part for a word of at most 64 bytes, or for no word.
    fn key_of_part(&self, part: u8, word: &[u8]) -> [u8; 32]
        requires { length word.now ≤ 64 }
        ensures { result ≡ K.prf self.now (part ∷ word.now) }
    {
        let mut input = [0u8; 65];
        let end = word.len() + 1;
        input[0] = part;
        input[1..end].copy_from_slice(word);
        self.key.prf(self.keyed, &input[..end])
    }
}

/// The first two numbers of a key.
fn numbers_of(key: &[u8; 32]) -> HashKeys
    ensures { hash_numbers result ≡ numbers_of_key key.now }
{
    let mut first = [0u8; 8];
    let mut second = [0u8; 8];
    first.copy_from_slice(&key[..8]);
    second.copy_from_slice(&key[8..16]);
    HashKeys::new(u64::from_be_bytes(first), u64::from_be_bytes(second))
}
