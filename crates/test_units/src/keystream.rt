use chacha_stream::{pad_into, xor, xor_in_place};

/// The key of RFC 8439, 2.3.2 and 2.4.2.
const COUNTED_KEY: [u8; 32] = [
    0, 1, 2, 3, 4, 5, 6, 7, 8, 9, 10, 11, 12, 13, 14, 15, 16, 17, 18, 19, 20, 21, 22, 23, 24, 25,
    26, 27, 28, 29, 30, 31,
];

/// The number whose eight bytes, low byte first, are 00 00 00 4a 00 00 00 00, as in 2.4.2.
const COUNTED_PAD: u64 = 1241513984;

const PLAINTEXT: &[u8] =
    b"Ladies and Gentlemen of the class of '99: If I could offer you only one tip for the future, sunscreen would be it.";

const CIPHERTEXT: [u8; 114] = [
    0x6e, 0x2e, 0x35, 0x9a, 0x25, 0x68, 0xf9, 0x80, 0x41, 0xba, 0x07, 0x28, 0xdd, 0x0d, 0x69, 0x81,
    0xe9, 0x7e, 0x7a, 0xec, 0x1d, 0x43, 0x60, 0xc2, 0x0a, 0x27, 0xaf, 0xcc, 0xfd, 0x9f, 0xae, 0x0b,
    0xf9, 0x1b, 0x65, 0xc5, 0x52, 0x47, 0x33, 0xab, 0x8f, 0x59, 0x3d, 0xab, 0xcd, 0x62, 0xb3, 0x57,
    0x16, 0x39, 0xd6, 0x24, 0xe6, 0x51, 0x52, 0xab, 0x8f, 0x53, 0x0c, 0x35, 0x9f, 0x08, 0x61, 0xd8,
    0x07, 0xca, 0x0d, 0xbf, 0x50, 0x0d, 0x6a, 0x61, 0x56, 0xa3, 0x8e, 0x08, 0x8a, 0x22, 0xb6, 0x5e,
    0x52, 0xbc, 0x51, 0x4d, 0x16, 0xcc, 0xf8, 0x06, 0x81, 0x8c, 0xe9, 0x1a, 0xb7, 0x79, 0x37, 0x36,
    0x5a, 0xf9, 0x0b, 0xbf, 0x74, 0xa3, 0x5b, 0xe6, 0xb4, 0x0b, 0x8e, 0xed, 0xf2, 0x78, 0x5e, 0x42,
    0x87, 0x4d,
];

/// Sixteen bytes of a pad, from the place `at` on.
#[derive(Clone, Copy)]
struct Part {
    key: [u8; 32],
    number: u64,
    at: usize,
    expected: [u8; 16],
}

/// The first block of A.1, and the beginning of block 1 of 2.4.2.
#[test]
fn key_stream_rfc8439(rt: HostRuntime) {
    let rows: [Part; 2] = [
        // A.1, test vector 1: the zero key and nonce, block 0
        Part {
            key: [0; 32],
            number: 0,
            at: 0,
            expected: [
                0x76, 0xb8, 0xe0, 0xad, 0xa0, 0xf1, 0x3d, 0x90, 0x40, 0x5d, 0x6a, 0xe5, 0x53, 0x86,
                0xbd, 0x28,
            ],
        },
        // 2.4.2: the first bytes of block 1
        Part {
            key: COUNTED_KEY,
            number: COUNTED_PAD,
            at: 64,
            expected: [
                0x22, 0x4f, 0x51, 0xf3, 0x40, 0x1b, 0xd9, 0xe1, 0x2f, 0xde, 0x27, 0x6f, 0xb8, 0x63,
                0x1d, 0xed,
            ],
        },
    ];
    for Part {
        key,
        number,
        at,
        expected,
    } in rows {
        let mut pad = [0; 80];
        pad_into(&key, number, &mut pad);
        assert_eq!(rt; at + 16 <= 80, true);
        assert_eq!(rt; &pad[at..at + 16], expected.as_slice());
    }
}

/// 2.4.2 whole, its counter beginning at 1: the first block of the pad is left out. Encrypted, and decrypted again.
#[test]
fn encryption_rfc8439_2_4_2(rt: HostRuntime) {
    let mut pad = [0; 178];
    pad_into(&COUNTED_KEY, COUNTED_PAD, &mut pad);
    let mut bytes = [0; 114];
    bytes.copy_from_slice(PLAINTEXT);
    xor(&mut bytes, &pad[64..]);
    assert_eq!(rt; bytes.as_slice(), CIPHERTEXT.as_slice());
    xor(&mut bytes, &pad[64..]);
    assert_eq!(rt; bytes.as_slice(), PLAINTEXT);
}

/// The same in place, after a block of zeros.
#[test]
fn encryption_in_place_rfc8439_2_4_2(rt: HostRuntime) {
    let mut bytes = [0; 178];
    bytes[64..].copy_from_slice(PLAINTEXT);
    xor_in_place(&mut bytes, &COUNTED_KEY, COUNTED_PAD);
    assert_eq!(rt; &bytes[64..], CIPHERTEXT.as_slice());
    xor_in_place(&mut bytes, &COUNTED_KEY, COUNTED_PAD);
    assert_eq!(rt; &bytes[64..], PLAINTEXT);
}
