use outside_memory_disk::{MemDisk, SteadyDisk};
use sse_outside::{DeviceFault, Disk};
use std::alloc::{AllocError, Global};
use std::test::Fail;

/// The bytes of these images of a disk, each with a bar after it.
fn images(alloc: Global, disk: &MemDisk, picks: &[u64]) -> Result<Vec<u8>, AllocError> {
    let mut bytes = Vec::new(alloc);
    for pick in picks {
        bytes.extend_from_slice(disk.image(*pick)?.bytes())?;
        bytes.push(b'|')?;
    }
    Ok(bytes)
}

/// One byte written to an empty disk and not synced.
fn one_byte(alloc: Global) -> Result<MemDisk, DeviceFault> {
    let mut disk = MemDisk::new(alloc, Vec::new(alloc));
    disk.write_at(0, b"\x01")?;
    Ok(disk)
}

/// The file stays empty, or has that byte or another one.
#[test]
fn one_byte_is_there_or_not(rt: HostRuntime) -> Result<(), Fail> {
    let disk = one_byte(rt.alloc())?;
    let images = images(rt.alloc(), &disk, &[0, 1, 2, 3, 4, 5, 6, 7])?;
    assert_eq!(rt; images.as_slice(), b"|\x01||\xfe||\x01||\xfe|".as_slice());
    assert_eq!(rt; disk.image(1)?.calls(), 0);
    Ok(())
}

/// Four bytes that last, all of them cut, and a write of two that fails.
fn cut_and_torn(alloc: Global) -> Result<MemDisk, DeviceFault> {
    let mut disk = MemDisk::new(alloc, vec![in alloc; 3]?);
    disk.write_at(0, b"abcd")?;
    disk.sync()?;
    disk.cut(0)?;
    match disk.write_at(0, b"xy") {
        Err(DeviceFault::Failed) => Ok(disk),
        Err(DeviceFault::NoMemory) => Err(DeviceFault::NoMemory),
        Ok(()) => Err(DeviceFault::Failed),
    }
}

/// By how much is left of the cut and of the write.
#[test]
fn a_cut_and_a_failed_write_may_be_there_in_part(rt: HostRuntime) -> Result<(), Fail> {
    let disk = cut_and_torn(rt.alloc())?;
    assert_eq!(rt; disk.bytes(), b"".as_slice());
    let images = images(rt.alloc(), &disk, &[0, 1, 2, 3, 4, 5, 6, 9, 10, 13])?;
    assert_eq!(rt;
        images.as_slice(),
        b"abcd||ab|\x9e\x9d\x9c\x9b|xycd|xy|xy|x|xb|\x87\x86|".as_slice()
    );
    Ok(())
}

/// The answers to five calls: a write, a sync, the length, a cut, a read of three bytes from the second on.
fn answers(disk: &mut MemDisk, out: &mut [u8; 3]) -> ([bool; 3], Option<u64>, Option<usize>) {
    let written = disk.write_at(0, b"ab").is_ok();
    let synced = disk.sync().is_ok();
    let len = disk.len().ok();
    let cut = disk.cut(0).is_ok();
    let read = disk.read_at(1, out).ok();
    ([written, synced, cut], len, read)
}

/// The calls 1 and 3 fail, and later the second from then on; a later number takes the place of an earlier one.
#[test]
fn calls_fail_where_they_are_told_to(rt: HostRuntime) -> Result<(), Fail> {
    let mut disk = MemDisk::new(rt.alloc(), vec![in rt.alloc(); 1, 3]?);
    let mut out = [0; 3];
    assert_eq!(rt;
        answers(&mut disk, &mut out),
        ([true, false, false], Some(2), Some(1))
    );
    assert_eq!(rt; out, *b"b\0\0");
    disk.fail_after(1);
    disk.fail_after(2);
    let read = [
        disk.read_at(2, &mut out).ok(),
        disk.read_at(0, &mut out).ok(),
    ];
    assert_eq!(rt; read, [Some(0), None]);
    assert_eq!(rt; disk.len(), Ok(2));
    assert_eq!(rt; disk.calls(), 8);
    Ok(())
}

/// What a disk holds after a write, a cut and two writes more.
fn written<D: Disk>(disk: &mut D, out: &mut [u8]) -> Result<u64, DeviceFault> {
    disk.write_at(0, b"abc")?;
    disk.cut(0)?;
    disk.write_at(0, b"defg")?;
    disk.sync()?;
    disk.write_at(0, b"h")?;
    disk.read_at(0, out)?;
    Ok(disk.len()?)
}

/// Through the trait; an empty disk has no byte at its front and none far after it.
#[test]
fn a_steady_disk_keeps_what_is_written(rt: HostRuntime) -> Result<(), Fail> {
    let mut disk = SteadyDisk::new(rt.alloc());
    let mut out = [0; 5];
    assert_eq!(rt; disk.len(), Ok(0));
    assert_eq!(rt; disk.read_at(0, &mut out), Ok(0));
    assert_eq!(rt; disk.read_at(u64::MAX, &mut out), Ok(0));
    assert_eq!(rt; written(&mut disk, &mut out), Ok(4));
    assert_eq!(rt; out, *b"hefg\0");
    assert_eq!(rt; disk.read_at(3, &mut out), Ok(1));
    Ok(())
}
