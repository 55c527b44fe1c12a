use hmac_sha256::{Hmac, HmacKey, hmac};

/// A key, a text and the code that the source of the table gives for them.
#[derive(Drop)]
struct Case {
    key: &'static [u8],
    text: &'static [u8],
    code: &'static [u8; 32],
}

/// Test cases 1 to 4, 6 and 7 of RFC 4231.
const RFC_4231: [Case; 6] = [
    Case {
        key: &[0x0b; 20],
        text: b"Hi There",
        code: b"\xb0\x34\x4c\x61\xd8\xdb\x38\x53\x5c\xa8\xaf\xce\xaf\x0b\xf1\x2b\x88\x1d\xc2\x00\xc9\x83\x3d\xa7\x26\xe9\x37\x6c\x2e\x32\xcf\xf7",
    },
    Case {
        key: b"Jefe",
        text: b"what do ya want for nothing?",
        code: b"\x5b\xdc\xc1\x46\xbf\x60\x75\x4e\x6a\x04\x24\x26\x08\x95\x75\xc7\x5a\x00\x3f\x08\x9d\x27\x39\x83\x9d\xec\x58\xb9\x64\xec\x38\x43",
    },
    Case {
        key: &[0xaa; 20],
        text: &[0xdd; 50],
        code: b"\x77\x3e\xa9\x1e\x36\x80\x0e\x46\x85\x4d\xb8\xeb\xd0\x91\x81\xa7\x29\x59\x09\x8b\x3e\xf8\xc1\x22\xd9\x63\x55\x14\xce\xd5\x65\xfe",
    },
    Case {
        key: b"\x01\x02\x03\x04\x05\x06\x07\x08\x09\x0a\x0b\x0c\x0d\x0e\x0f\x10\x11\x12\x13\x14\x15\x16\x17\x18\x19",
        text: &[0xcd; 50],
        code: b"\x82\x55\x8a\x38\x9a\x44\x3c\x0e\xa4\xcc\x81\x98\x99\xf2\x08\x3a\x85\xf0\xfa\xa3\xe5\x78\xf8\x07\x7a\x2e\x3f\xf4\x67\x29\x66\x5b",
    },
    Case {
        key: &[0xaa; 131],
        text: b"Test Using Larger Than Block-Size Key - Hash Key First",
        code: b"\x60\xe4\x31\x59\x1e\xe0\xb6\x7f\x0d\x8a\x26\xaa\xcb\xf5\xb7\x7f\x8e\x0b\xc6\x21\x37\x28\xc5\x14\x05\x46\x04\x0f\x0e\xe3\x7f\x54",
    },
    Case {
        key: &[0xaa; 131],
        text: b"This is a test using a larger than block-size key and a larger than block-size data. The key needs to be hashed before being used by the HMAC algorithm.",
        code: b"\x9b\x09\xff\xa7\x1b\x94\x2f\xcb\x27\x63\x5f\xbc\xd5\xb0\xe9\x44\xbf\xdc\x63\x64\x4f\x07\x13\x93\x8a\x7f\x51\x53\x5c\x3a\x35\xe2",
    },
];

/// The keys and texts of the next table are fronts of these bytes.
const BYTES: [u8; 131] = [
    0x0b, 0x35, 0x69, 0xa7, 0xef, 0x41, 0x9d, 0x03, 0x73, 0xed, 0x71, 0xff, 0x97, 0x39, 0xe5, 0x9b,
    0x5b, 0x25, 0xf9, 0xd7, 0xbf, 0xb1, 0xad, 0xb3, 0xc3, 0xdd, 0x01, 0x2f, 0x67, 0xa9, 0xf5, 0x4b,
    0xab, 0x15, 0x89, 0x07, 0x8f, 0x21, 0xbd, 0x63, 0x13, 0xcd, 0x91, 0x5f, 0x37, 0x19, 0x05, 0xfb,
    0xfb, 0x05, 0x19, 0x37, 0x5f, 0x91, 0xcd, 0x13, 0x63, 0xbd, 0x21, 0x8f, 0x07, 0x89, 0x15, 0xab,
    0x4b, 0xf5, 0xa9, 0x67, 0x2f, 0x01, 0xdd, 0xc3, 0xb3, 0xad, 0xb1, 0xbf, 0xd7, 0xf9, 0x25, 0x5b,
    0x9b, 0xe5, 0x39, 0x97, 0xff, 0x71, 0xed, 0x73, 0x03, 0x9d, 0x41, 0xef, 0xa7, 0x69, 0x35, 0x0b,
    0xeb, 0xd5, 0xc9, 0xc7, 0xcf, 0xe1, 0xfd, 0x23, 0x53, 0x8d, 0xd1, 0x1f, 0x77, 0xd9, 0x45, 0xbb,
    0x3b, 0xc5, 0x59, 0xf7, 0x9f, 0x51, 0x0d, 0xd3, 0xa3, 0x7d, 0x61, 0x4f, 0x47, 0x49, 0x55, 0x6b,
    0x8b, 0xb5, 0xe9,
];

/// The code of a key and a text that are the first bytes of `BYTES`.
#[derive(Clone, Copy)]
struct Lengths {
    key: usize,
    text: usize,
    code: &'static [u8; 32],
}

/// Computed with the module `hmac` of Python 3.
const BY_LENGTH: [Lengths; 10] = [
    Lengths {
        key: 0,
        text: 0,
        code: b"\xb6\x13\x67\x9a\x08\x14\xd9\xec\x77\x2f\x95\xd7\x78\xc3\x5f\xc5\xff\x16\x97\xc4\x93\x71\x56\x53\xc6\xc7\x12\x14\x42\x92\xc5\xad",
    },
    Lengths {
        key: 0,
        text: 64,
        code: b"\x69\x85\x0f\x0c\xbf\x1e\xb0\xb0\xb1\x74\xab\x5a\xe3\x84\x08\x06\x67\x4f\xe2\x21\x9d\xab\x6e\x1f\x94\x04\xad\xd2\x89\x2a\x9e\x5c",
    },
    Lengths {
        key: 1,
        text: 1,
        code: b"\xbd\x40\x17\x18\x21\xa4\x87\x92\x07\x51\x19\xfc\x93\xf4\x58\x0f\xe6\x56\x2d\x52\xba\x0f\xca\xbf\xe4\x14\xac\x70\x9b\x61\xff\x1e",
    },
    Lengths {
        key: 31,
        text: 63,
        code: b"\xfd\x91\x68\x89\x04\x35\xe2\xa8\xd5\xd1\xf1\xdc\x4f\xd4\x5a\x31\x53\x77\x00\xd5\xa3\xdf\x88\xab\xbe\x4b\xc6\xd6\xe7\x11\x38\xec",
    },
    Lengths {
        key: 32,
        text: 65,
        code: b"\xe3\xc7\xbf\x29\x4c\x4c\xf4\xcc\x5b\x02\x63\xaa\x7e\x0d\x04\xd6\xa5\x32\xc4\x76\x28\x75\x50\x1c\x55\x44\x1b\x22\x11\xa1\x4d\x5f",
    },
    Lengths {
        key: 63,
        text: 55,
        code: b"\x3d\xf2\x23\xb9\x66\x3d\xa0\x2d\x3d\x4c\x04\xe7\xed\xb2\x78\x4e\x70\x8c\x0c\x22\x7b\x0e\x5d\x45\x1e\x22\xb3\x0c\xb0\x74\x38\xa6",
    },
    Lengths {
        key: 64,
        text: 56,
        code: b"\x90\xdb\xe9\x90\x3a\x7b\xee\x68\x1f\x64\x50\x32\x2f\x4a\x91\x7e\xa4\x49\xa8\x66\xa4\x04\xcc\x15\x4c\xff\x9e\xb0\x6c\x39\x7a\x62",
    },
    Lengths {
        key: 65,
        text: 131,
        code: b"\x62\x08\x9e\x91\x16\xa0\xf6\xcb\x0c\xd0\xca\xbf\x32\xcb\xa6\xf8\x3d\x4f\x6e\x93\xfb\x68\xe1\xaa\x49\x05\xb1\x36\x43\xd6\xa0\xc4",
    },
    Lengths {
        key: 131,
        text: 0,
        code: b"\x76\x61\xa2\x70\x36\x55\x8b\x45\x70\x97\x11\x66\x66\x65\x17\xbe\xba\xe3\x5d\xbf\xbe\x4f\x64\xe2\x89\x67\x67\x0a\x80\xcb\x83\xb1",
    },
    Lengths {
        key: 131,
        text: 120,
        code: b"\x41\x26\x1b\x37\xe9\x5c\x09\x7b\xca\xe4\xda\xed\x7a\x86\xb0\x87\x5b\xab\xeb\x38\x7c\x9e\x47\x4d\x49\xe9\xbb\x77\x62\x86\x0d\xc9",
    },
];

/// The code of a text that comes in two pieces, cut after its first `first` bytes.
fn in_pieces(key: &[u8], text: &[u8], first: usize) -> Option<[u8; 32]> {
    let (front, back) = text.split_at_checked(first)?;
    let mut state = Hmac::new(key);
    state.update(front);
    state.update(back);
    Some(state.finish())
}

/// The test cases of RFC 4231: in one call, in two pieces, and twice under a prepared key.
#[test]
fn hmac_sha256_rfc_4231(rt: HostRuntime) {
    for case in RFC_4231 {
        assert_eq!(rt; hmac(case.key, case.text), *case.code);
        assert_eq!(rt; in_pieces(case.key, case.text, 5), Some(*case.code));
        let key = HmacKey::new(case.key);
        assert_eq!(rt; key.code(case.text), *case.code);
        assert_eq!(rt; key.code(case.text), *case.code);
    }
}

/// Keys and texts of lengths about the size of a block, each in the same three ways.
#[test]
fn codes_of_python(rt: HostRuntime) {
    for Lengths { key, text, code } in BY_LENGTH {
        let Some((key, _)) = BYTES.split_at_checked(key) else {
            panic!(rt; "a key of at most 131 bytes");
        };
        let Some((text, _)) = BYTES.split_at_checked(text) else {
            panic!(rt; "a text of at most 131 bytes");
        };
        assert_eq!(rt; hmac(key, text), *code);
        assert_eq!(rt; in_pieces(key, text, text.len()), Some(*code));
        assert_eq!(rt; HmacKey::new(key).code(text), *code);
    }
}
