ghost use Rattle.std.specs.Prelude.{◌≡◌};
ghost use Rattle.service_places.specs.Stops.{line_of_service, status_of_service, stop_line, stop_of_serve, stop_status};

use tcp_service::ServeFault;

/// Why no further connection is served, before there were as many as were asked for.
#[derive(Clone, Copy)]
pub enum ServiceStop {
    /// The address can't be bound, or the listener failed.
    Link,
    /// The file can't be opened, or the disk failed.
    Disk,
    /// There was no memory to begin with.
    Memory,
    /// The file is no journal of what is served.
    NoJournal,
    /// The system gave no random keys for the hash tables.
    NoRandomness,
}

/// Why the program ends before it served as many connections as were asked for.
#[derive(Clone, Copy)]
pub enum Stop {
    /// The words of the command line aren't right.
    Words,
    /// What they ask for ended.
    Service(ServiceStop),
}

impl ServiceStop {
    // Promise P31, also here; clauses: ensures
    // Promise P188, also here; clauses: ensures
    /// The exit status.
    fn status(self) -> u8
        ensures { result ≡ status_of_service self }
    {
        match self {
            ServiceStop::Link => 5,
            ServiceStop::Disk => 6,
            ServiceStop::Memory => 7,
            ServiceStop::NoJournal => 10,
            ServiceStop::NoRandomness => 11,
        }
    }

    // Promise P31, also here; clauses: ensures
    // Promise P188, also here; clauses: ensures
    /// The last line that is printed, with its end.
    fn line(self) -> &'static [u8]
        ensures { result.now ≡ line_of_service self }
    {
        match self {
            ServiceStop::Link => b"stopped: link\n",
            ServiceStop::Disk => b"stopped: disk\n",
            ServiceStop::Memory => b"stopped: memory\n",
            ServiceStop::NoJournal => b"stopped: no journal\n",
            ServiceStop::NoRandomness => b"stopped: no randomness\n",
        }
    }
}

impl Stop {
    // Promise P31, also here; clauses: ensures
    // Promise P188, also here; clauses: ensures
    /// The exit status.
    pub fn status(self) -> u8
        ensures { result ≡ stop_status self }
    {
        match self {
            Stop::Words => 2,
            Stop::Service(stop) => stop.status(),
        }
    }

    // Promise P31, also here; clauses: ensures
    // Promise P188, also here; clauses: ensures
    /// The last line that is printed, with its end.
    pub fn line(self) -> &'static [u8]
        ensures { result.now ≡ stop_line self }
    {
        match self {
            Stop::Words => b"stopped: words\n",
            Stop::Service(stop) => stop.line(),
        }
    }
}

impl From<ServiceStop> for Stop {
    ghost use Rattle.service_places.specs.declared.stop.Stop.TheVariants as stops;

    ghost from_gives = { λ service stop. stop ≡ stops.Service service };

    fn from(stop: ServiceStop) -> Stop {
        Stop::Service(stop)
    }
}

impl From<ServeFault> for ServiceStop {
    ghost from_gives = { λ fault stop. stop ≡ stop_of_serve fault };

    fn from(fault: ServeFault) -> ServiceStop {
        match fault {
            ServeFault::NoConnection => ServiceStop::Link,
            ServeFault::StoreFault => ServiceStop::Disk,
        }
    }
}
