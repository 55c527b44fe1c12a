use keyed_fn::Real;
use search_token::Token;

// The token of the word `archive` under the master key whose byte i is 7 i + 1, modulo 256, and what it
// gives and opens: computed with Python's own hashlib and the ChaCha20 of its package cryptography.

const TOKEN: &[u8; 160] =
    b"\x8a\x8a\x09\xc4\xe9\x0b\xd4\x05\xd5\xdf\xf8\x6f\x65\xca\xfc\x69\xba\x6e\x82\xe1\x4c\x49\x72\xee\x74\x3a\xc0\xfa\xbf\x57\x42\x8f\xf7\x59\xe6\x8f\xd1\x2d\x6c\xe9\xb4\x78\x24\xa5\x99\x51\xb2\x31\x83\x0e\x1c\x99\xe6\xd3\x4e\x56\x80\x4c\x8f\xae\x40\x82\x16\x25\x2a\xf4\x51\xf9\x7a\x33\x29\xbb\x38\xa9\x03\x6d\xec\xba\x5f\x95\x3c\x6b\xe5\xd9\x67\x96\x2d\x14\x0e\xf6\xcd\x78\x6d\x84\xe2\xf0\x58\x32\x25\xb7\x31\x71\x00\xe1\xbd\x0f\xb5\x73\xf4\x3a\x29\xe4\x54\x10\x18\xb6\x46\xd9\x82\x8d\xcc\x4f\xe0\x33\x62\xc4\xe3\x9e\xf9\x49\xaf\xcf\x45\x69\xd7\x59\xc1\x49\x96\x56\x5b\xb7\x7c\xac\x8c\x7c\xb8\xd2\xeb\x72\x0e\x98\x34\xd3\x84\x33\xdc\x2e\x9a\xd6";

const LIST_LABEL: &[u8; 16] = b"\x56\x8d\xf7\x67\x9a\x98\xfe\x59\x0f\x31\xe0\x4a\xa3\x14\x2e\xdb";

/// Of addition 4,294,967,294.
const PLUS_LABEL: &[u8; 16] = b"\xc4\x4a\xa9\x8f\xe4\x8d\xe7\xfa\x68\x75\x27\x93\x7f\x62\x8e\x1e";

/// Of the identifier 18,446,744,073,709,551,615.
const REVOCATION: &[u8; 16] = b"\x58\x52\x50\xcd\x96\x71\x4a\x50\x1a\xce\xe6\x13\xfa\x37\x73\xb4";

/// The bytes 1 to 8, under the pad of the cell, of block 65,537 and of addition 4,294,967,294.
const OPENED: [[u8; 8]; 3] = [
    *b"\x68\xdd\x6d\xf0\x7d\x44\x45\x49",
    *b"\xc8\x70\x9d\x64\x9b\x51\x62\x8e",
    *b"\xbb\x68\x31\x44\x09\xfa\x27\xf3",
];

/// The labels and the revocation number, by the token and by what it prepares for many.
fn labels(token: &Token) -> [[u8; 16]; 5] {
    [
        token.list_label(&Real),
        token.plus_label(&Real, 4294967294),
        token.plus_labels(&Real).label(&Real, 4294967294),
        token.revocation(&Real, u64::MAX),
        token.revocations(&Real).number(&Real, u64::MAX),
    ]
}

/// The bytes 1 to 8, opened as a cell, as a block and as an addition.
fn opened(token: &Token) -> [[u8; 8]; 3] {
    let [mut cell, mut block, mut addition] = [[1, 2, 3, 4, 5, 6, 7, 8]; 3];
    token.open_cell(&Real, &mut cell);
    token.open_block(&Real, 65537, &mut block);
    token.open_plus(&Real, 4294967294, &mut addition);
    [cell, block, addition]
}

/// Each call of a token once, and its bytes read and written.
#[test]
fn calls_of_a_token(rt: HostRuntime) {
    let token = Token::from_bytes(TOKEN);
    assert_eq!(rt; token.to_bytes(), *TOKEN);
    assert_eq!(rt;
        labels(&token),
        [
            *LIST_LABEL,
            *PLUS_LABEL,
            *PLUS_LABEL,
            *REVOCATION,
            *REVOCATION
        ]
    );
    assert_eq!(rt; opened(&token), OPENED);
}
