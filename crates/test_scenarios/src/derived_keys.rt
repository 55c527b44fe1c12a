use client_registry::{HashKeys, Word};
use keyed_fn::{Keyed, Real};
use std::test::Fail;
use word_keys::{MasterKey, PreparedMaster, seal};

// What the master key whose byte i is 7 i + 1, modulo 256, gives for the word `archive`: computed with
// Python's own hashlib and the ChaCha20 of its package cryptography.

const MASTER: &[u8; 32] =
    b"\x01\x08\x0f\x16\x1d\x24\x2b\x32\x39\x40\x47\x4e\x55\x5c\x63\x6a\x71\x78\x7f\x86\x8d\x94\x9b\xa2\xa9\xb0\xb7\xbe\xc5\xcc\xd3\xda";

const TOKEN: &[u8; 160] =
    b"\x8a\x8a\x09\xc4\xe9\x0b\xd4\x05\xd5\xdf\xf8\x6f\x65\xca\xfc\x69\xba\x6e\x82\xe1\x4c\x49\x72\xee\x74\x3a\xc0\xfa\xbf\x57\x42\x8f\xf7\x59\xe6\x8f\xd1\x2d\x6c\xe9\xb4\x78\x24\xa5\x99\x51\xb2\x31\x83\x0e\x1c\x99\xe6\xd3\x4e\x56\x80\x4c\x8f\xae\x40\x82\x16\x25\x2a\xf4\x51\xf9\x7a\x33\x29\xbb\x38\xa9\x03\x6d\xec\xba\x5f\x95\x3c\x6b\xe5\xd9\x67\x96\x2d\x14\x0e\xf6\xcd\x78\x6d\x84\xe2\xf0\x58\x32\x25\xb7\x31\x71\x00\xe1\xbd\x0f\xb5\x73\xf4\x3a\x29\xe4\x54\x10\x18\xb6\x46\xd9\x82\x8d\xcc\x4f\xe0\x33\x62\xc4\xe3\x9e\xf9\x49\xaf\xcf\x45\x69\xd7\x59\xc1\x49\x96\x56\x5b\xb7\x7c\xac\x8c\x7c\xb8\xd2\xeb\x72\x0e\x98\x34\xd3\x84\x33\xdc\x2e\x9a\xd6";

/// The label of its list and of addition 4,294,967,294, the revocation number of identifier 18,446,744,073,709,551,615, the
/// place tag of block 65,537, in two ways, and the key check value of the master key.
const VALUES: [[u8; 16]; 6] = [
    *b"\x56\x8d\xf7\x67\x9a\x98\xfe\x59\x0f\x31\xe0\x4a\xa3\x14\x2e\xdb",
    *b"\xc4\x4a\xa9\x8f\xe4\x8d\xe7\xfa\x68\x75\x27\x93\x7f\x62\x8e\x1e",
    *b"\x58\x52\x50\xcd\x96\x71\x4a\x50\x1a\xce\xe6\x13\xfa\x37\x73\xb4",
    *b"\x7c\x3a\xa5\xf9\xf2\xb2\xd3\x0c\xfb\x68\x12\xac\xf2\x6c\xba\x63",
    *b"\x7c\x3a\xa5\xf9\xf2\xb2\xd3\x0c\xfb\x68\x12\xac\xf2\x6c\xba\x63",
    *b"\x72\xf2\xcf\xda\x93\xfd\x39\x7b\x33\x53\xc0\x0e\x2d\xe7\xaf\x1a",
];

/// The two numbers of the hasher.
const HASHING: [u64; 2] = [0xc162430b3966b6c8, 0x14247bf118f93f81];

/// The bytes 1 to 8, under the pads of the cell, of block 0 and of addition 4,294,967,294.
const ENCRYPTED: [[u8; 8]; 3] = [
    *b"\x68\xdd\x6d\xf0\x7d\x44\x45\x49",
    *b"\x27\xe6\x84\x50\xf1\xea\x86\x19",
    *b"\xbb\x68\x31\x44\x09\xfa\x27\xf3",
];

/// The values of a word, with the addition of this number, as they stand in the tables.
fn values<K: Keyed>(master: &PreparedMaster<'_, K>, word: &Word, addition: u32) -> [[u8; 16]; 6] {
    let keyed = master.keyed();
    let place_key = master.place_key(word);
    [
        master.list_label(word),
        master.plus_keys(word).label(keyed, addition),
        master.revocation_key(word).number(keyed, u64::MAX),
        place_key.tag(keyed, 65537),
        place_key.tags(keyed).tag(65537),
        master.mark(),
    ]
}

/// The bytes 1 to 8, encrypted under the first two pads of a word's list and under the pad of the addition of this number.
fn encrypted<K: Keyed>(master: &PreparedMaster<'_, K>, word: &Word, addition: u32) -> [[u8; 8]; 3] {
    let keyed = master.keyed();
    let [mut cell, mut block, mut added] = [[1, 2, 3, 4, 5, 6, 7, 8]; 3];
    let mut pads = master.list_pads(word);
    seal(pads.next(), keyed, &mut cell);
    seal(pads.next(), keyed, &mut block);
    seal(master.plus_keys(word).slot(addition), keyed, &mut added);
    [cell, block, added]
}

/// What each call gives for the word `archive`.
#[test]
fn keys_and_pads_of_a_word(rt: HostRuntime) -> Result<(), Fail> {
    let word = Word::read(b"archive").ok().ok_or("no word")?;
    let real = Real;
    let master = MasterKey::new(*MASTER).prepare(&real);
    assert_eq!(rt; master.token(&word).to_bytes(), *TOKEN);
    assert!(rt; master.hash_keys() == HashKeys::new(HASHING[0], HASHING[1]));
    assert_eq!(rt; values(&master, &word, 4294967294), VALUES);
    assert_eq!(rt; encrypted(&master, &word, 4294967294), ENCRYPTED);
    Ok(())
}
