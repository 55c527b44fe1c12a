use add_counters::{CounterFull, Entry, next_entry};
use client_core::{HistoryFull, frames_after};
use client_registry::{DocId, Word};
use keyed_fn::{Real, Toy};
use std::test::Fail;
use word_keys::MasterKey;

/// The key whose byte i is 7 i + 1, modulo 256.
const MASTER: [u8; 32] =
    *b"\x01\x08\x0f\x16\x1d\x24\x2b\x32\x39\x40\x47\x4e\x55\x5c\x63\x6a\x71\x78\x7f\x86\x8d\x94\x9b\xa2\xa9\xb0\xb7\xbe\xc5\xcc\xd3\xda";

/// Of addition 4,294,967,294 of the word `archive` under that key, and of the identifier whose bytes are 1 to 8: computed
/// with Python's own hashlib and the ChaCha20 of its package cryptography.
const LAST: Entry = Entry {
    label: *b"\xc4\x4a\xa9\x8f\xe4\x8d\xe7\xfa\x68\x75\x27\x93\x7f\x62\x8e\x1e",
    sealed: *b"\xbb\x68\x31\x44\x09\xfa\x27\xf3",
};

/// Of the toy function under the key of 32 zero bytes, the word `a` and identifier 5: computed by hand.
const TOY: Entry = Entry {
    label: *b"\xc5\xc7\xc9\xcb\xcd\xcf\xd1\xd3\xd5\xd7\xd9\xdb\xdd\xdf\xe1\xe3",
    sealed: *b"\xc6\xc7\xc8\xc9\xca\xcb\xcc\xc8",
};

/// The entry at the last counter, none behind it, and one of the toy function.
#[test]
fn the_last_counter_is_4294967294(rt: HostRuntime) -> Result<(), Fail> {
    let archive = Word::read(b"archive").ok().ok_or("no word")?;
    let a = Word::read(b"a").ok().ok_or("no word")?;
    let id = DocId::new(0x0102030405060708).ok().ok_or("no identifier")?;
    let five = DocId::new(5).ok().ok_or("no identifier")?;
    let keys = MasterKey::new(MASTER).prepare(&Real).plus_keys(&archive);
    assert_eq!(rt; next_entry(&Real, &keys, 4294967294, id), Ok(LAST));
    assert_eq!(rt; next_entry(&Real, &keys, 4294967295, id), Err(CounterFull));
    let toy = MasterKey::new([0; 32]).prepare(&Toy).plus_keys(&a);
    assert_eq!(rt; next_entry(&Toy, &toy, 0, five), Ok(TOY));
    Ok(())
}

/// 2^32-1 frames have a number, and no more.
#[test]
fn frames_are_counted_to_their_bound(rt: HostRuntime) {
    assert_eq!(rt; frames_after(4294967294, 1), Ok(4294967295));
    assert_eq!(rt; frames_after(4294967295, 0), Ok(4294967295));
    assert_eq!(rt; frames_after(4294967295, 1), Err(HistoryFull));
}
