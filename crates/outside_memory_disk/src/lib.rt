//! Disks in memory, for tests and for runs in one process: `SteadyDisk` never fails, `MemDisk` has a list of failing
//! calls. Both implement the trait `Disk` of `sse_outside` and record every write, cut and sync, so that a contract
//! can say what a crash may leave at any moment. They are as bad as the trait allows: every torn range and every part
//! of a cut tail is among the crash images, and `MemDisk::image` makes one of them from a number, so that a test can
//! repeat a crash. Memory is taken before a call is counted, so that out of memory never counts as a fault.
//! Proved: each call records exactly the change that it makes, a failing call included; a call that only reads or is
//! out of memory records none; the image of a number is one that a crash may leave.
//! Side: both.
#![tactic(auto)]

mod disk_call;
mod mem_disk;
mod recorded;
mod steady_disk;
mod torn_calls;

pub use mem_disk::MemDisk;
pub use steady_disk::SteadyDisk;
