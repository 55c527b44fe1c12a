use client_replies::{Found, Progress};
use std::alloc::{AllocError, Global};
use std::test::Fail;

/// The last page of an answer, with the identifiers 9 and 3. Spelled by hand.
const PAGE: [u8; 24] =
    *b"\x00\x00\x00\x14\x85\x01\x00\x02\x00\x00\x00\x00\x00\x00\x00\x09\x00\x00\x00\x00\x00\x00\x00\x03";

/// The bytes of a page of 8,192 identifiers that isn't the last, each of them 1.
fn full_page(alloc: Global) -> Result<Vec<u8>, AllocError> {
    let mut page = Vec::new(alloc);
    page.extend_from_slice(b"\x00\x01\x00\x04\x85\x00\x20\x00")?;
    for _ in 0..8192u32 {
        page.extend_from_slice(b"\x00\x00\x00\x00\x00\x00\x00\x01")?;
    }
    Ok(page)
}

/// How many of 123 full pages are taken, each with more behind it.
fn taken(found: &mut Found, full: &[u8]) -> u32 {
    let mut taken = 0u32;
    for _ in 0..123u32 {
        if found.page(full) == Ok(Progress::More) {
            taken = taken.wrapping_add(1);
        }
    }
    taken
}

/// With memory enough, an answer of more than 10^6 identifiers is gathered: 123 full pages, and a last one.
#[test]
fn an_answer_above_a_million(rt: HostRuntime) -> Result<(), Fail> {
    let full = full_page(rt.alloc())?;
    let mut found = Found::new(rt.alloc());
    assert_eq!(rt; taken(&mut found, &full), 123);
    assert_eq!(rt; found.page(&PAGE), Ok(Progress::Done));
    assert_eq!(rt; found.finish().len(), 1_007_618);
    Ok(())
}
