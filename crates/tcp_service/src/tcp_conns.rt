ghost use Rattle.std.specs.Prelude.{◌≡◌, ◌+◌, ◌-◌, ◌^◌, ◌≤◌, ◌<◌, false, None, IfOk};
ghost use Rattle.sse_outside.specs.Causes.{HasCause};

use crate::{ConnEnd, Conns, Duplex};
use outside_tcp::{TimedReader, TimedWriter, is_lost, is_short};
use sse_outside::{Failed, StdSink, StdSource};
use std::net::{SocketAddr, TcpListener, TcpStream};
use std::time::Duration;
use std::{fmt, io, thread};

/// How long it waits before it accepts again where the system lacked memory or files, in milliseconds.
const PAUSE: u64 = 100;

/// A connection over a socket, and the address of its peer.
type Accepted = (
    Duplex<StdSource<TimedReader>, StdSink<TimedWriter>>,
    SocketAddr,
);

/// The connections that a listener accepts, over both directions of a socket.
///
/// What is written goes out at once. A peer that is silent for 60 seconds, that doesn't read for 60 seconds, that takes more than
/// two minutes for a frame or for a reply, ends its own connection. Where a connection is lost before it was given, the next one
/// is waited for; where the system lacks memory or files for one, after a pause. Every other error of the listener is a fault.
///
/// What ended a connection other than at its end, and why none is given, is a line on standard error.
#[derive(Drop)]
pub struct TcpConns {
    rt: HostRuntime,
    listener: TcpListener,
    /// The peer of the connection that was given last, for that line.
    peer: Option<SocketAddr>,
    given: u64,
    lent: u64,
    faults: u64,
    ghost some_given: { lent ≤ given },
}

impl TcpConns {
    // Promise P135 (caller): Connections of a listener are counted as given and lent; if none is given, the fault count rose.
    //   clauses: given, lent, faults; checks: .ci/served, .ci/tcp; not: That writes go out at once, the limits of time, that a connection lost before it was given is passed over,
    //     and the lines on standard error.
    /// The connections that `listener` accepts from now on.
    pub fn new(rt: &HostRuntime, listener: TcpListener) -> TcpConns
        ensures given { result.given ≡ 0 }
        ensures lent { result.lent ≡ 0 }
        ensures faults { result.faults ≡ 0 }
    {
        TcpConns {
            rt: *rt,
            listener,
            peer: None,
            given: 0,
            lent: 0,
            faults: 0,
        }
    }

    /// Waits for a connection; an error is counted.
    fn accept(&mut self) -> Result<Duplex<StdSource<TimedReader>, StdSink<TimedWriter>>, Failed>
        ensures given { self.new.given ≡ self.old.given }
        ensures lent { self.new.lent ≡ self.old.lent }
        ensures room { IfOk result (λ _. self.new.given < 2 ^ 64 - 1) }
        ensures cause { HasCause self.old.faults self.new.faults result }
    {
        let accepted = if self.given < u64::MAX {
            accepted(&self.rt, &self.listener)
        } else {
            Err(Failed)
        };
        match accepted {
            Ok((conn, peer)) => {
                self.peer = Some(peer);
                Ok(conn)
            }
            Err(failed) => {
                self.faults = self.faults.saturating_add(1);
                Err(failed)
            }
        }
    }
}

impl Conns for TcpConns {
    type In = StdSource<TimedReader>;

    type Out = StdSink<TimedWriter>;

    ghost faults = { λ c. c.faults };

    ghost given = { λ c. c.given };

    ghost lent = { λ c. c.lent };

    ghost ended = { λ _. false };

    ghost offered = { λ _. None };

    ghost returned = { λ _. None };

    fn next(
        &mut self,
    ) -> Result<Option<Duplex<StdSource<TimedReader>, StdSink<TimedWriter>>>, Failed> {
        let conn = self.accept()?;
        self.given += 1;
        self.lent += 1;
        Ok(Some(conn))
    }

    fn not_started<E: fmt::Display>(&self, cause: &E) {
        let _ = eprintln!(self.rt; "the store was not started: {cause}");
    }

    // Promise P135, also here; clauses: back, given_kept, steady
    fn done(&mut self, conn: Duplex<StdSource<TimedReader>, StdSink<TimedWriter>>, end: ConnEnd)
        requires lent { 0 < self.old.lent }
        ensures back { self.old.lent ≡ self.new.lent + 1 }
        ensures given_kept { self.new.given ≡ self.old.given }
        ensures steady { self.new.faults ≡ self.old.faults }
    {
        drop(conn);
        self.lent -= 1;
        report(&self.rt, self.peer, end);
    }
}

/// Says how a connection ended, unless it was at its end.
fn report(rt: &HostRuntime, peer: Option<SocketAddr>, end: ConnEnd) {
    let Some(peer) = peer else {
        return;
    };
    if end != ConnEnd::Closed {
        let _ = eprintln!(rt; "connection from {peer} ended: {end}");
    }
}

/// Waits for a connection.
fn accepted(rt: &HostRuntime, listener: &TcpListener) -> Result<Accepted, Failed> {
    for _ in 0..u64::MAX {
        match listener.accept() {
            Ok((stream, peer)) => {
                if let Ok(conn) = halves_of(rt, stream) {
                    return Ok((conn, peer));
                }
            }
            Err(error) if is_lost(&error) => {}
            Err(error) if is_short(&error) => thread::sleep(rt, Duration::from_millis(PAUSE)),
            Err(error) => {
                let _ = eprintln!(rt; "no connection can be accepted: {error}");
                return Err(Failed);
            }
        }
    }
    Err(Failed)
}

/// Both directions of a stream, each a handle of its own.
fn halves_of(
    rt: &HostRuntime,
    stream: TcpStream,
) -> io::Result<Duplex<StdSource<TimedReader>, StdSink<TimedWriter>>> {
    stream.set_nodelay(true)?;
    let sink = StdSink::new(TimedWriter::new(rt, stream.try_clone()?));
    Ok(Duplex {
        source: StdSource::new(TimedReader::new(rt, stream)),
        sink,
    })
}
