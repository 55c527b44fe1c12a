use list_packing::{HoleInBlock, number_at, pack, part, unpack, write_numbers};

/// Five numbers in blocks of two, over what the bytes were before: the last block ends in zeros.
#[test]
fn five_numbers_in_blocks_of_two(rt: HostRuntime) {
    let numbers = [1, 258, 3, 4, 0x0102_0304_0506_0708];
    let wanted: [[u8; 16]; 3] = [
        [0, 0, 0, 0, 0, 0, 0, 1, 0, 0, 0, 0, 0, 0, 1, 2],
        [0, 0, 0, 0, 0, 0, 0, 3, 0, 0, 0, 0, 0, 0, 0, 4],
        [1, 2, 3, 4, 5, 6, 7, 8, 0, 0, 0, 0, 0, 0, 0, 0],
    ];
    for (i, block) in wanted.iter().enumerate() {
        let mut bytes = [0xff; 16];
        pack(&numbers, 2, i, &mut bytes);
        assert_eq!(rt; &bytes, block);
    }
    assert_eq!(rt; part(&numbers, 2, 1), [3, 4].as_slice());
    assert_eq!(rt; part(&numbers, 2, 2).len(), 1);
    assert_eq!(rt; number_at(&wanted[0], 1), 258);
}

/// Blocks of two numbers read: full, half full, empty, and with a number after a zero.
#[test]
fn numbers_before_the_zeros(rt: HostRuntime) {
    let rows = [
        ([1u64, 2], Ok(2)),
        ([7, 0], Ok(1)),
        ([0, 0], Ok(0)),
        ([0, 7], Err(HoleInBlock(1))),
    ];
    for (numbers, wanted) in rows {
        let mut bytes = [0; 16];
        write_numbers(&numbers, &mut bytes);
        assert_eq!(rt; unpack(&bytes), wanted);
    }
}
