ghost use Rattle.std.specs.Prelude.{◌≡◌, false, IfOk};

use crate::StreamLink;
use buffered_source::BufferedSource;
use sse_outside::{StdSink, StdSource};
use std::io;
use std::net::TcpStream;
use std::time::Duration;

/// How long a send or a receive may wait for the other side to take or to bring something, in seconds.
const TIMEOUT: u64 = 60;

/// A link over a socket.
pub type TcpLink = StreamLink<BufferedSource<StdSource<TcpStream>>, StdSink<TcpStream>>;

/// A link over both directions of a connection, each a handle of its own. A frame goes out at once, however short it is, and a
/// read or a write that waits 60 seconds fails, so that a server that is silent, or that doesn't read, cuts the link.
///
/// An error is that of the system, which doesn't give a second handle or doesn't take an option.
pub fn tcp_link(stream: TcpStream) -> io::Result<TcpLink>
    ensures due { IfOk result (λ link. link.due ≡ false) }
    ensures place { IfOk result (λ link. link.lost ≡ false) }
    ensures faults { IfOk result (λ link. link.faults ≡ 0) }
{
    stream.set_nodelay(true)?;
    stream.set_read_timeout(Some(Duration::from_secs(TIMEOUT)))?;
    stream.set_write_timeout(Some(Duration::from_secs(TIMEOUT)))?;
    let sink = StdSink::new(stream.try_clone()?);
    Ok(StreamLink::new(BufferedSource::new(StdSource::new(stream)), sink))
}
