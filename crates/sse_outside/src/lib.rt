//! Everything outside the program: where bytes come from (`Source`), where they go (`Sink`) and where they are kept
//! (`Disk`). All code above is written over these three traits, so its contracts can name the bytes that come in and
//! go out, and the files that a crash may leave. Nothing here knows what the bytes mean. In memory there are devices
//! that never fail and devices with a list of failing calls; `StdSource`, `StdSink` and `FileDisk` wrap std's `Read`,
//! `Write` and `File`. About a reader whose bytes aren't known std promises nothing, so `StdSource` asks that a
//! reader's type tells its bytes always or never.
//! Proved: a device hands on exactly the bytes that it has, and its count of faults rises at a call that failed and
//! at no other. After a successful sync there is one file that a crash can leave.
//! Not covered: what a real device holds.
//! Side: both.
#![tactic(auto)]

mod device_fault;
mod disk;
mod failed;
mod failing_calls;
mod file_disk;
mod handed_bytes;
mod mem_sink;
mod mem_source;
mod printed_bytes;
mod sink;
mod source;
mod std_sink;
mod std_source;
mod steady_sink;
mod steady_source;

pub use device_fault::DeviceFault;
pub use disk::Disk;
pub use failed::Failed;
pub use failing_calls::FailingCalls;
pub use file_disk::{FileDisk, read_full, write_full};
pub use handed_bytes::hand_out;
pub use mem_sink::MemSink;
pub use mem_source::MemSource;
pub use printed_bytes::print_all;
pub use sink::Sink;
pub use source::Source;
pub use std_sink::StdSink;
pub use std_source::StdSource;
pub use steady_sink::SteadySink;
pub use steady_source::SteadySource;
