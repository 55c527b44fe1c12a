use crate::Places;
use sse_outside::{Failed, FileDisk};
use std::io;
use std::net::TcpStream;

/// How a program makes its link over a connection.
pub trait OverTcp {
    type Link: Drop;

    /// A link over a connection. An error is that of the system.
    fn link(&self, stream: TcpStream) -> io::Result<Self::Link>;
}

/// Files of the system, and links over TCP. It tells contracts nothing but its count of faults.
#[derive(Drop)]
pub struct SystemPlaces<'a, T> {
    rt: &'a HostRuntime,
    over_tcp: T,
    faults: u64,
}

impl<'a, T: OverTcp + Drop> SystemPlaces<'a, T> {
    /// The files and the addresses that the system reaches on which the program runs, with links made so.
    pub fn new(rt: &'a HostRuntime, over_tcp: T) -> SystemPlaces<'a, T> {
        SystemPlaces {
            rt,
            over_tcp,
            faults: 0,
        }
    }
}

impl<'a, T: OverTcp + Drop> Places for SystemPlaces<'a, T> {
    type Disk = FileDisk;

    type Link = T::Link;

    ghost use Rattle.std.specs.Prelude.{None};

    ghost faults = { λ p. p.faults };

    ghost events = { λ _. None };

    ghost holds = { λ _ _ _. Unit {0} };

    ghost reaches = { λ _ _ _. Unit {0} };

    ghost kept = { λ _ _. Unit {0} };

    ghost hung = { λ _ _. Unit {0} };

    fn open(&mut self, path: &str) -> Result<FileDisk, Failed> {
        let opened = outside_journal_file::open(self.rt, path);
        if opened.is_err() {
            self.faults = self.faults.saturating_add(1);
        }
        opened
    }

    fn connect(&mut self, address: &str) -> Result<T::Link, Failed> {
        match connected(self.rt, &self.over_tcp, address) {
            Ok(link) => Ok(link),
            Err(_) => {
                self.faults = self.faults.saturating_add(1);
                Err(Failed)
            }
        }
    }

    fn hang_up(&mut self, link: T::Link) {
        drop(link);
    }

    fn close(&mut self, disk: FileDisk) {
        drop(disk);
    }
}

/// A link over a connection to an address. A name is looked up by the C library; an IP address isn't.
fn connected<T: OverTcp>(rt: &HostRuntime, over_tcp: &T, address: &str) -> io::Result<T::Link> {
    over_tcp.link(TcpStream::connect(rt, address)?)
}
