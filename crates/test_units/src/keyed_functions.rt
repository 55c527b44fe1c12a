use keyed_fn::{Keyed, PreparedKey, Real, Toy, front_at};

/// The master key of the tables: byte i is 7 i + 1, modulo 256.
const MASTER: &[u8; 32] =
    b"\x01\x08\x0f\x16\x1d\x24\x2b\x32\x39\x40\x47\x4e\x55\x5c\x63\x6a\x71\x78\x7f\x86\x8d\x94\x9b\xa2\xa9\xb0\xb7\xbe\xc5\xcc\xd3\xda";

/// The first 16 bytes of the function at a number, under the key of a part.
#[derive(Clone, Copy)]
struct Code {
    part: u8,
    number: u64,
    front: &'static [u8; 16],
}

/// Of the store's function, under the keys of parts for the word `archive`: computed with Python's own hashlib.
const CODES: [Code; 7] = [
    // the label of a list
    Code {
        part: 1,
        number: 0,
        front: b"\x56\x8d\xf7\x67\x9a\x98\xfe\x59\x0f\x31\xe0\x4a\xa3\x14\x2e\xdb",
    },
    // the label of an addition
    Code {
        part: 3,
        number: 4294967294,
        front: b"\xc4\x4a\xa9\x8f\xe4\x8d\xe7\xfa\x68\x75\x27\x93\x7f\x62\x8e\x1e",
    },
    // revocation numbers
    Code {
        part: 5,
        number: 1,
        front: b"\xe1\x63\x22\xf7\x14\x2b\xec\xf1\x2d\x78\x9c\xbc\xa9\xc6\xd3\x9b",
    },
    Code {
        part: 5,
        number: 18446744073709551614,
        front: b"\x3e\xe6\xaa\x07\x00\x6c\x66\x07\x33\x69\xf0\x6a\xc6\x1d\xb9\x54",
    },
    Code {
        part: 5,
        number: 18446744073709551615,
        front: b"\x58\x52\x50\xcd\x96\x71\x4a\x50\x1a\xce\xe6\x13\xfa\x37\x73\xb4",
    },
    // place tags
    Code {
        part: 6,
        number: 65537,
        front: b"\x7c\x3a\xa5\xf9\xf2\xb2\xd3\x0c\xfb\x68\x12\xac\xf2\x6c\xba\x63",
    },
    Code {
        part: 6,
        number: 1048575,
        front: b"\xb1\x48\x90\x4f\x3f\xd5\xee\xcc\xaf\x7f\xa7\x91\x8c\xa4\x23\x82",
    },
];

/// The first 8 bytes of a pad, by its number, under the key of a part.
#[derive(Clone, Copy)]
struct Pad {
    part: u8,
    number: u64,
    front: &'static [u8; 8],
}

/// Pads of the store, under the keys of parts for the word `archive`: computed with Python's own hashlib and the ChaCha20 of its package cryptography.
const PADS: [Pad; 4] = [
    // the pad of a cell
    Pad {
        part: 2,
        number: 0,
        front: b"\x69\xdf\x6e\xf4\x78\x42\x42\x41",
    },
    // the pads of blocks
    Pad {
        part: 2,
        number: 65538,
        front: b"\xc9\x72\x9e\x60\x9e\x57\x65\x86",
    },
    Pad {
        part: 2,
        number: 1048576,
        front: b"\xe6\xd2\x6b\xd8\x2a\x23\x59\xb1",
    },
    // the pad of an addition
    Pad {
        part: 4,
        number: 4294967294,
        front: b"\xba\x6a\x32\x40\x0c\xfc\x20\xfb",
    },
];

/// Of the toy function, under the keys of parts for the word `a` and a master key of zeros: computed by hand.
const TOY_CODES: [Code; 3] = [
    // the label of the list
    Code {
        part: 1,
        number: 0,
        front: b"\xc3\xc5\xc7\xc9\xcb\xcd\xcf\xd1\xd3\xd5\xd7\xd9\xdb\xdd\xdf\xe1",
    },
    // the label of addition 0
    Code {
        part: 3,
        number: 0,
        front: b"\xc5\xc7\xc9\xcb\xcd\xcf\xd1\xd3\xd5\xd7\xd9\xdb\xdd\xdf\xe1\xe3",
    },
    // the revocation number of identifier 1
    Code {
        part: 5,
        number: 1,
        front: b"\xcf\xd1\xd3\xd5\xd7\xd9\xdb\xdd\xdf\xe1\xe3\xe5\xe7\xe9\xeb\xed",
    },
];

/// The key of a part for the word `archive`.
fn part_key(part: u8) -> [u8; 32] {
    let mut input = *b"?archive";
    input[0] = part;
    PreparedKey::new(&Real, MASTER).prf(&Real, &input)
}

/// The function of the store, under a bare key and under a prepared one.
#[test]
fn codes_of_real(rt: HostRuntime) {
    for Code {
        part,
        number,
        front,
    } in CODES {
        let key = part_key(part);
        assert_eq!(rt; front_at(&Real, &key, number), *front);
        assert_eq!(rt;
            PreparedKey::new(&Real, &key).front_at(&Real, number),
            *front
        );
    }
}

/// The toy function, under a bare key and under a prepared one.
#[test]
fn codes_of_toy(rt: HostRuntime) {
    for Code {
        part,
        number,
        front,
    } in TOY_CODES {
        let key = PreparedKey::new(&Toy, &[0; 32]).prf(&Toy, &[part, b'a']);
        assert_eq!(rt; front_at(&Toy, &key, number), *front);
        assert_eq!(rt; PreparedKey::new(&Toy, &key).front_at(&Toy, number), *front);
    }
}

/// The fronts of four pads of the store.
#[test]
fn pads_of_real(rt: HostRuntime) {
    for Pad {
        part,
        number,
        front,
    } in PADS {
        let mut pad = [0u8; 8];
        Real.pad_into(&part_key(part), number, &mut pad);
        assert_eq!(rt; pad, *front);
    }
}
