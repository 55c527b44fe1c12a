ghost use Rattle.std.specs.Prelude.{◌≡◌};
ghost use Rattle.std.specs.IoError.{error_kind, raw_os_error};
ghost use Rattle.outside_tcp.specs.AcceptErrors as accepts;

use std::io;
use std::io::ErrorKind;

// Promise P181 (caller): The errors of `accept` after which the server waits for the next connection are those of two lists.
//   clauses: ensures; checks: .ci/served; not: What the system answers when, and that it goes on: tested.
/// Whether an error of `accept` tells of the connection that was waited for, and not of the listener.
pub fn is_lost(error: &io::Error) -> bool
    ensures { result ≡ accepts.is_lost (error_kind error.now) }
{
    matches!(
        error.kind(),
        ErrorKind::Interrupted
            | ErrorKind::ConnectionAborted
            | ErrorKind::ConnectionReset
            | ErrorKind::HostUnreachable
            | ErrorKind::NetworkUnreachable
            | ErrorKind::NetworkDown
    )
}

// Promise P181, also here; clauses: ensures
/// Whether an error of `accept` tells that the system lacks memory or files for a connection, or that the protocol failed at it: it passes
/// when others give theirs back. These are the numbers of Linux for ENOMEM, ENFILE, EMFILE, EPROTO and ENOBUFS.
pub fn is_short(error: &io::Error) -> bool
    ensures { result ≡ accepts.is_short (raw_os_error error.now) }
{
    matches!(error.raw_os_error(), Some(12 | 23 | 24 | 71 | 105))
}
