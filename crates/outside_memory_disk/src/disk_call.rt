/// A call on a disk in memory that changed its file, or failed in that; a sync that succeeded.
#[derive(Drop)]
pub enum DiskCall {
    Wrote { at: u64, bytes: Vec<u8> },
    FailedToWrite { at: u64, bytes: Vec<u8> },
    CutTo { len: u64 },
    FailedToCut { len: u64 },
    Synced,
}
