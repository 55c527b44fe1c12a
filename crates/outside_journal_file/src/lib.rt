//! Opens, creates and locks the file of a journal, so that one program at a time writes to it. The client's and the
//! server's programs use it; it depends on `sse_outside` for the disk over a file, writes nothing, and doesn't know
//! what a journal holds. The lock is the system's and lasts as long as the process, since a lock file could outlive
//! it. A new file belongs to its owner alone, whatever the umask, since a client's journal holds plaintext; a device
//! is refused, since it would forget. The folder is synced while the file is empty, so that a file made by a process
//! that ended just then lasts too.
//! Proved: the disk that is opened has no fault yet.
//! Not covered: what the system does with the file, the lock and the folder.
//! Side: both.
#![tactic(auto)]

ghost use Rattle.std.specs.Prelude.{◌≡◌, IfOk};

use sse_outside::{Disk, Failed, FileDisk};
use std::fs::File;
use std::io;
use std::io::ErrorKind;
use std::os::unix::fs::OpenOptionsExt;
use std::path::Path;

/// The permissions of a file that is made: its owner reads and writes it, and nobody else.
const OWNER_ALONE: u32 = 0o600;

/// Opens the file of a journal, and makes it where it isn't there, for its owner alone. Nobody else opens it so until this process
/// ends, and the folder of a file that is still empty lasts. What is no plain file is refused, since a folder, a pipe or a device
/// keeps no journal.
pub fn open(rt: &HostRuntime, path: &str) -> Result<FileDisk, Failed>
    ensures { IfOk result (λ disk. ⟦<FileDisk as Disk>⟧.faults disk ≡ 0) }
{
    match locked(rt, path) {
        Ok(file) => Ok(FileDisk::new(file)),
        Err(_) => Err(Failed),
    }
}

/// That file, under a lock that the system gives up when the process ends, however it ends.
fn locked(rt: &HostRuntime, path: &str) -> io::Result<File> {
    let mut options = File::options();
    options
        .read(true)
        .write(true)
        .create(true)
        .mode(OWNER_ALONE);
    let file = options.open(rt, path)?;
    let metadata = file.metadata()?;
    if !metadata.is_file() || file.try_lock().is_err() {
        return Err(io::Error::from(ErrorKind::InvalidInput));
    }
    if metadata.len() == 0 {
        sync_folder(rt, path)?;
    }
    Ok(file)
}

/// Makes the entry of a file in its folder last: what is written to a file that a crash takes out of its folder is gone.
fn sync_folder(rt: &HostRuntime, path: &str) -> io::Result<()> {
    let folder = match Path::new(path).parent() {
        Some(folder) if !folder.as_str().is_empty() => File::open(rt, folder)?,
        _ => File::open(rt, ".")?,
    };
    folder.sync_all()
}
