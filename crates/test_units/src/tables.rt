use server_tables::{BucketTables, Missing, SortedTables, TableFault, Tables};
use std::process::Abort;
use std::test::Fail;

const A: [u8; 16] = [1; 16];

const B: [u8; 16] = [2; 16];

/// Whether something was found, and is these bytes.
fn is_piece(found: Option<&[u8]>, wanted: &[u8]) -> bool {
    match found {
        Some(piece) => piece == wanted,
        None => false,
    }
}

/// Two cells, and none under a label that is taken or was never put in.
fn keeps_entries<T: Tables>(rt: &impl Abort, tables: &mut T) {
    assert_eq!(rt; tables.put_entry(&B, b"bcd"), Ok(()));
    assert_eq!(rt; tables.put_entry(&A, b"a"), Ok(()));
    assert_eq!(rt; tables.put_entry(&B, b"x"), Err(TableFault::Taken));
    assert!(rt; is_piece(tables.entry(&A), b"a"));
    assert!(rt; is_piece(tables.entry(&B), b"bcd"));
    assert!(rt; tables.entry(&[3; 16]).is_none());
    assert_eq!(rt; tables.entry_len(), 2);
}

/// Two blocks, one of them without bytes.
fn keeps_blocks<T: Tables>(rt: &impl Abort, tables: &mut T) -> Result<(), Fail> {
    tables.push_block(b"wxyz")?;
    tables.push_block(b"")?;
    assert!(rt; is_piece(tables.block(0), b"wxyz"));
    assert!(rt; is_piece(tables.block(1), b""));
    assert!(rt; tables.block(2).is_none());
    assert_eq!(rt; tables.block_len(), 2);
    Ok(())
}

/// An addition, and no other under its label.
fn keeps_additions<T: Tables>(rt: &impl Abort, tables: &mut T) {
    assert_eq!(rt; tables.put_plus(&A, b"addition"), Ok(()));
    assert_eq!(rt; tables.put_plus(&A, b"another1"), Err(TableFault::Taken));
    assert_eq!(rt; tables.plus(&A), Some(*b"addition"));
    assert_eq!(rt; tables.plus(&B), None);
    assert_eq!(rt; tables.plus_len(), 1);
}

/// A revocation number, which is then given back.
fn keeps_numbers<T: Tables>(rt: &impl Abort, tables: &mut T) {
    assert_eq!(rt; tables.revoke(&B), Ok(()));
    assert_eq!(rt; tables.revoke(&B), Err(TableFault::Taken));
    assert!(rt; tables.is_revoked(&B));
    assert!(rt; !tables.revokes_none());
    assert!(rt; !tables.is_revoked(&A));
    assert_eq!(rt; tables.restore(&A), Err(Missing));
    assert_eq!(rt; tables.restore(&B), Ok(()));
    assert!(rt; !tables.is_revoked(&B));
    assert!(rt; tables.revokes_none());
}

/// Nothing is left behind `clear`.
fn keeps_nothing<T: Tables>(rt: &impl Abort, tables: &mut T) {
    tables.clear();
    assert!(rt; tables.entry(&A).is_none());
    assert!(rt; tables.block(0).is_none());
    assert_eq!(rt; tables.plus(&A), None);
}

/// Each call through the bound: what was put in is there, and each refusal comes.
fn keeps_what_it_is_given<T: Tables>(rt: &impl Abort, tables: &mut T) -> Result<(), Fail> {
    tables.reserve(2, 3, 1, 4, 1, 1)?;
    keeps_entries(rt, tables);
    keeps_blocks(rt, tables)?;
    keeps_additions(rt, tables);
    keeps_numbers(rt, tables);
    keeps_nothing(rt, tables);
    Ok(())
}

/// The label of a number, which begins as all others do.
fn alike(n: u8) -> [u8; 16] {
    [
        7,
        7,
        7,
        7,
        n.reverse_bits(),
        0,
        0,
        0,
        0,
        0,
        0,
        0,
        0,
        0,
        0,
        n,
    ]
}

/// 200 labels whose first four bytes are the same, put in by no order, are each found; a size that no memory has is
/// refused.
fn finds_labels_that_begin_alike<T: Tables>(rt: &impl Abort, tables: &mut T) -> Result<(), Fail> {
    assert!(rt; tables.reserve(usize::MAX, usize::MAX, 0, 0, 0, 0).is_err());
    for n in 0..200u8 {
        let label = alike(n);
        assert_eq!(rt; tables.put_plus(&label, &[n; 8]), Ok(()));
    }
    for n in 0..200u8 {
        let label = alike(n);
        assert_eq!(rt; tables.plus(&label), Some([n; 8]));
    }
    Ok(())
}

/// Tables whose labels stand in sorted vectors.
#[test]
fn sorted_tables_are_tables(rt: HostRuntime) -> Result<(), Fail> {
    let mut tables = SortedTables::new(rt.alloc());
    keeps_what_it_is_given(&rt, &mut tables)?;
    finds_labels_that_begin_alike(&rt, &mut tables)
}

/// Tables whose labels stand in hash tables.
#[test]
fn bucket_tables_are_tables(rt: HostRuntime) -> Result<(), Fail> {
    let mut tables = BucketTables::new(rt.alloc());
    keeps_what_it_is_given(&rt, &mut tables)?;
    finds_labels_that_begin_alike(&rt, &mut tables)
}
