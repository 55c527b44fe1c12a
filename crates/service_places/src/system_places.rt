ghost use Rattle.std.specs.Prelude.{◌≡◌};

use crate::{Address, FilePath, Places};
use sse_outside::{Failed, FileDisk};
use std::net::TcpListener;
use tcp_service::TcpConns;

/// Files of the system, and connections over TCP. It tells contracts nothing but its count of faults.
#[derive(Drop)]
pub struct SystemPlaces<'a> {
    rt: &'a HostRuntime,
    faults: u64,
}

impl<'a> SystemPlaces<'a> {
    /// The files and the addresses of the system on which the program runs.
    pub fn new(rt: &'a HostRuntime) -> SystemPlaces<'a>
        ensures { result.faults ≡ 0 }
    {
        SystemPlaces { rt, faults: 0 }
    }
}

impl<'a> Places for SystemPlaces<'a> {
    type Disk = FileDisk;

    type Conns = TcpConns;

    ghost use Rattle.std.specs.Prelude.{None};

    ghost faults = { λ p. p.faults };

    ghost events = { λ _. None };

    ghost holds = { λ _ _ _. Unit {0} };

    ghost hears = { λ _ _ _. Unit {0} };

    ghost kept = { λ _ _. Unit {0} };

    ghost ended = { λ _ _. Unit {0} };

    fn open(&mut self, path: FilePath<'_>) -> Result<FileDisk, Failed> {
        let opened = outside_journal_file::open(self.rt, path.as_str());
        if opened.is_err() {
            self.faults = self.faults.saturating_add(1);
            let _ = eprintln!(self.rt;
                "{} was not opened: it must be a plain file that no other program has open",
                path.as_str()
            );
        }
        opened
    }

    fn listen(&mut self, address: Address<'_>) -> Result<TcpConns, Failed> {
        match TcpListener::bind(self.rt, address.as_str()) {
            Ok(listener) => Ok(TcpConns::new(self.rt, listener)),
            Err(error) => {
                self.faults = self.faults.saturating_add(1);
                let _ = eprintln!(self.rt;
                    "{} is no address to listen at now: {error}",
                    address.as_str()
                );
                Err(Failed)
            }
        }
    }

    fn end(&mut self, conns: TcpConns) {
        drop(conns);
    }

    fn close(&mut self, disk: FileDisk) {
        drop(disk);
    }
}
