ghost use Rattle.std.specs.Prelude.{◌≡◌, ◌+◌, ◌≤◌, ◌++◌, length, take, drop};
ghost use Rattle.keyed_fn.specs.KeyedFn.{keyed_fn};
ghost use Rattle.keyed_fn.specs.KeyFormulas as formula;
ghost use Rattle.keyed_fn.specs.Xored.{xored};
ghost use Rattle.search_token.specs.TokenKeys.{keys_in_order, keys_of_bytes, token_bytes};

use crate::plus_labels::PlusLabels;
use crate::revocations::Revocations;
use keyed_fn::{Keyed, front_at, xor_pad};
use std::marker::Model;

/// The keys of the parts 1 to 5 of one word, 32 bytes each. A contract sees the five keys.
#[derive(Clone, Copy)]
pub struct Token {
    label_key: [u8; 32],
    pad_key: [u8; 32],
    plus_label_key: [u8; 32],
    plus_pad_key: [u8; 32],
    revocation_key: [u8; 32],
}

impl Model for Token {
    ghost use Rattle.search_token.specs.TokenKeys.{TokenKeys};

    ghost Value = { TokenKeys };

    ghost view = { λ t. record {
      label_key = t.label_key;
      pad_key = t.pad_key;
      plus_label_key = t.plus_label_key;
      plus_pad_key = t.plus_pad_key;
      revocation_key = t.revocation_key;
    } };

    ghost inverse = { λ k. record {
      label_key = k.label_key;
      pad_key = k.pad_key;
      plus_label_key = k.plus_label_key;
      plus_pad_key = k.plus_pad_key;
      revocation_key = k.revocation_key;
    } };
}

impl Token {
    // Promise P96 (caller): A token is five keys; its labels, numbers and opened texts are those that the key formulas give for them.
    //   clauses: ensures; assumes: sizes in bounds; not: That the keys are those of a word (P97).
    /// Takes the keys of the parts 1 to 5, in this order.
    pub fn new(keys: [[u8; 32]; 5]) -> Token
        ensures { result ≡ keys_in_order keys }
    {
        let [
            label_key,
            pad_key,
            plus_label_key,
            plus_pad_key,
            revocation_key,
        ] = keys;
        Token {
            label_key,
            pad_key,
            plus_label_key,
            plus_pad_key,
            revocation_key,
        }
    }

    // Promise P96, also here; clauses: ensures
    /// Reads the 160 bytes of a token: the five keys one after another.
    pub fn from_bytes(bytes: &[u8; 160]) -> Token
        ensures { result ≡ keys_of_bytes bytes.now }
    {
        Token {
            label_key: key_at(bytes, 0),
            pad_key: key_at(bytes, 32),
            plus_label_key: key_at(bytes, 64),
            plus_pad_key: key_at(bytes, 96),
            revocation_key: key_at(bytes, 128),
        }
    }

    // Promise P96, also here; clauses: ensures
    /// The 160 bytes of the token: the five keys one after another.
    pub fn to_bytes(&self) -> [u8; 160]
        ensures { result ≡ token_bytes self.now }
    {
        let mut bytes = [0u8; 160];
        put_key(&mut bytes, 0, &self.label_key);
        put_key(&mut bytes, 32, &self.pad_key);
        put_key(&mut bytes, 64, &self.plus_label_key);
        put_key(&mut bytes, 96, &self.plus_pad_key);
        put_key(&mut bytes, 128, &self.revocation_key);
        bytes
    }

    // Promise P96, also here; clauses: ensures
    /// The 16-byte label of the word's list.
    pub fn list_label<K: Keyed>(&self, keyed: &K) -> [u8; 16]
        ensures { result ≡ formula.list_label (keyed_fn K.prf K.pad) self.now.label_key }
    {
        front_at(keyed, &self.label_key, 0)
    }

    // Promise P96, also here; clauses: ensures
    /// The labels of the word's additions, prepared for many.
    pub fn plus_labels<K: Keyed>(&self, keyed: &K) -> PlusLabels<K>
        ensures { result ≡ self.now.plus_label_key }
    {
        PlusLabels::new(keyed, &self.plus_label_key)
    }

    // Promise P96, also here; clauses: ensures
    /// The word's revocation numbers, prepared for many.
    pub fn revocations<K: Keyed>(&self, keyed: &K) -> Revocations<K>
        ensures { result ≡ self.now.revocation_key }
    {
        Revocations::new(keyed, &self.revocation_key)
    }

    // Promise P96, also here; clauses: ensures
    /// The 16-byte label of the word's addition number `c`, from 0.
    pub fn plus_label<K: Keyed>(&self, keyed: &K, c: u64) -> [u8; 16]
        ensures { result ≡ formula.plus_label (keyed_fn K.prf K.pad) self.now.plus_label_key c }
    {
        front_at(keyed, &self.plus_label_key, c)
    }

    // Promise P96, also here; clauses: ensures
    /// The 16-byte revocation number of an identifier for the word.
    pub fn revocation<K: Keyed>(&self, keyed: &K, id: u64) -> [u8; 16]
        ensures { result ≡ formula.revocation (keyed_fn K.prf K.pad) self.now.revocation_key id }
    {
        front_at(keyed, &self.revocation_key, id)
    }

    // Promise P96, also here; clauses: ensures
    /// XORs the pad of the list's cell into the bytes, at most 2,048 of them: encrypts the cell, or
    /// decrypts it.
    pub fn open_cell<K: Keyed>(&self, keyed: &K, cell: &mut [u8])
        requires { length cell.old ≤ 2048 }
        ensures { cell.new ≡ xored cell.old (formula.cell_pad (keyed_fn K.prf K.pad) self.now.pad_key (length cell.old)) }
    {
        xor_pad(keyed, &self.pad_key, 0, cell);
    }

    // Promise P96, also here; clauses: ensures
    /// XORs the pad of the list's block of this number, from 0, into the bytes, at most 2,048 of them.
    pub fn open_block<K: Keyed>(&self, keyed: &K, number: u32, block: &mut [u8])
        requires { length block.old ≤ 2048 }
        ensures { block.new ≡ xored block.old (formula.block_pad (keyed_fn K.prf K.pad) self.now.pad_key number (length block.old)) }
    {
        xor_pad(keyed, &self.pad_key, u64::from(number) + 1, block);
    }

    // Promise P96, also here; clauses: ensures
    /// XORs the pad of the word's addition number `c`, from 0, into its 8 bytes.
    pub fn open_plus<K: Keyed>(&self, keyed: &K, c: u64, sealed: &mut [u8; 8])
        ensures { sealed.new ≡ xored sealed.old (formula.plus_pad (keyed_fn K.prf K.pad) self.now.plus_pad_key c) }
    {
        xor_pad(keyed, &self.plus_pad_key, c, sealed);
    }
}

/// The 32 bytes at a place.
fn key_at(bytes: &[u8; 160], at: usize) -> [u8; 32]
    requires { at ≤ 128 }
    ensures { result ≡ take 32 (drop at bytes.now) }
{
    let mut key = [0u8; 32];
    key.copy_from_slice(&bytes[at..at + 32]);
    key
}

/// Writes a key after what stands before the place.
fn put_key(bytes: &mut [u8; 160], at: usize, key: &[u8; 32])
    requires { at ≤ 128 }
    ensures { take (at + 32) bytes.new ≡ take at bytes.old ++ key.now }
{
    bytes[at..at + 32].copy_from_slice(key);
}
