use list_packing::write_numbers;
use two_level::{
    CellFault, CellRead, ListTooLong, Plan, Shape, lay_block, lay_cell, number_at, plan,
    read_block, read_cell,
};

/// Five identifiers in cells and blocks of two: two blocks of pointers and three of identifiers, at the places
/// 4, 0, 2, 1 and 3 of the array. Written over other bytes, and read back.
#[test]
fn five_identifiers_in_two_levels(rt: HostRuntime) {
    let shape = Shape::within(2, 2);
    let ids = [11, 12, 13, 14, 15];
    let ranks = [4, 0, 2, 1, 3];
    let wanted = [[3, 2], [4, 0], [11, 12], [13, 14], [15, 0]];
    let mut cell = [0xff; 17];
    lay_cell(&ids, &ranks, shape, &mut cell);
    assert_eq!(rt; cell, [2, 0, 0, 0, 0, 0, 0, 0, 5, 0, 0, 0, 0, 0, 0, 0, 1]);
    assert_eq!(rt; read_cell(&cell, 5), Ok(CellRead { kind: 2, count: 2 }));
    assert_eq!(rt; number_at(&cell, 0), 5);
    for (i, numbers) in wanted.iter().enumerate() {
        let mut block = [0xff; 16];
        lay_block(&ids, &ranks, shape, i as u32, &mut block);
        assert_eq!(rt; [number_at(&block, 0), number_at(&block, 1)], *numbers);
        assert!(rt; read_block(&block, None).is_ok());
    }
}

/// Two identifiers in the one block of a cell with one pointer, and one in the cell itself.
#[test]
fn short_lists(rt: HostRuntime) {
    let shape = Shape::within(1, 2);
    let mut cell = [0xff; 9];
    lay_cell(&[1, 2], &[0], shape, &mut cell);
    assert_eq!(rt; cell, [1, 0, 0, 0, 0, 0, 0, 0, 1]);
    lay_cell(&[7], &[], shape, &mut cell);
    assert_eq!(rt; cell, [0, 0, 0, 0, 0, 0, 0, 0, 7]);
}

/// A cell of two numbers, and its first fault.
#[derive(Clone, Copy)]
struct BadCell {
    kind: u8,
    numbers: [u64; 2],
    fault: CellFault,
}

/// Cells of two numbers over an array of five blocks, with their first faults.
#[test]
fn cells_that_are_none(rt: HostRuntime) {
    let rows: [BadCell; 5] = [
        BadCell {
            kind: 3,
            numbers: [0, 6],
            fault: CellFault::BadKind(3),
        },
        BadCell {
            kind: 0,
            numbers: [0, 6],
            fault: CellFault::Hole(1),
        },
        BadCell {
            kind: 1,
            numbers: [0, 6],
            fault: CellFault::Hole(1),
        },
        BadCell {
            kind: 1,
            numbers: [5, 6],
            fault: CellFault::BadPointer(1),
        },
        BadCell {
            kind: 2,
            numbers: [6, 0],
            fault: CellFault::BadPointer(0),
        },
    ];
    for BadCell {
        kind,
        numbers,
        fault,
    } in rows {
        let mut cell = [kind; 17];
        write_numbers(&numbers, &mut cell[1..]);
        assert_eq!(rt; read_cell(&cell, 5), Err(fault));
    }
    let block = [0, 0, 0, 0, 0, 0, 0, 6, 0, 0, 0, 0, 0, 0, 0, 0];
    assert_eq!(rt; read_block(&block, None), Ok(1));
    assert_eq!(rt; read_block(&block, Some(5)), Err(CellFault::BadPointer(0)));
    assert_eq!(rt; read_cell(&[0; 17], 0), Ok(CellRead { kind: 0, count: 0 }));
}

/// The plan of a list, where its parameters are in range.
fn planned(n: u64, b: u16, big: u16) -> Option<Result<Plan, ListTooLong>> {
    if n >= 1 && b >= 1 && b <= 64 && big >= 1 && big <= 256 {
        Some(plan(n, b, big))
    } else {
        None
    }
}

/// A list of n numbers in cells of b and blocks of `big`, and its plan.
#[derive(Clone, Copy)]
struct WorkedList {
    n: u64,
    b: u16,
    big: u16,
    kind: u8,
    pointer_blocks: u32,
    data_blocks: u32,
}

/// One word in n documents, b and big 2: the blocks that the construction needs, counted by hand; then the
/// list of 9,000 in cells of 16 and blocks of 64.
#[test]
fn blocks_of_the_worked_lists(rt: HostRuntime) {
    let rows: [WorkedList; 9] = [
        WorkedList {
            n: 1,
            b: 2,
            big: 2,
            kind: 0,
            pointer_blocks: 0,
            data_blocks: 0,
        },
        WorkedList {
            n: 2,
            b: 2,
            big: 2,
            kind: 0,
            pointer_blocks: 0,
            data_blocks: 0,
        },
        WorkedList {
            n: 3,
            b: 2,
            big: 2,
            kind: 1,
            pointer_blocks: 0,
            data_blocks: 2,
        },
        WorkedList {
            n: 4,
            b: 2,
            big: 2,
            kind: 1,
            pointer_blocks: 0,
            data_blocks: 2,
        },
        WorkedList {
            n: 5,
            b: 2,
            big: 2,
            kind: 2,
            pointer_blocks: 2,
            data_blocks: 3,
        },
        WorkedList {
            n: 8,
            b: 2,
            big: 2,
            kind: 2,
            pointer_blocks: 2,
            data_blocks: 4,
        },
        WorkedList {
            n: 9000,
            b: 16,
            big: 64,
            kind: 2,
            pointer_blocks: 3,
            data_blocks: 141,
        },
        WorkedList {
            n: 8192,
            b: 16,
            big: 64,
            kind: 2,
            pointer_blocks: 2,
            data_blocks: 128,
        },
        WorkedList {
            n: 4_194_304,
            b: 64,
            big: 256,
            kind: 2,
            pointer_blocks: 64,
            data_blocks: 16384,
        },
    ];
    for row in rows {
        let wanted = Plan {
            kind: row.kind,
            pointer_blocks: row.pointer_blocks,
            data_blocks: row.data_blocks,
        };
        assert_eq!(rt; planned(row.n, row.b, row.big), Some(Ok(wanted)));
    }
    assert_eq!(rt; planned(9, 2, 2), Some(Err(ListTooLong(9))));
}
