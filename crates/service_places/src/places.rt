ghost use Rattle.std.specs.Prelude.{◌≡◌, ℕ, List, IfOk, OnErr};
ghost use Rattle.std.specs.declared.option.Option.{Option};
ghost use Rattle.sse_outside.specs.Causes.{HasCause};
ghost use Rattle.service_places.specs.Places.{Event, Opened, NotOpened, Listened, NotListened, Ended, Closed, with_event};

use crate::{Address, FilePath};
use sse_outside::{Disk, Failed};
use tcp_service::Conns;

/// Where a server's disk and its connections come from.
///
/// It tells contracts its count of faults (`faults`), which disks an open of a path may give (`holds`) and which connections may come
/// to an address (`hears`), and which disk and connections were given back last (`kept`, `ended`). If it can, it also tells what it
/// was asked for, in order, with what it gave and got back (`events`).
pub trait Places {
    type Disk: Disk + Drop;

    type Conns: Conns + Drop;

    ghost faults: { Self → ℕ };

    ghost events: { Self → Option (List (Event Self.Disk Self.Conns)) };

    ghost holds: { Self → List ℕ → Self.Disk → Type 0 };

    ghost hears: { Self → List ℕ → Self.Conns → Type 0 };

    ghost kept: { Self → Self.Disk → Type 0 };

    ghost ended: { Self → Self.Conns → Type 0 };

    /// Opens the file of a path, which is made if it isn't there. What may come to an address stays.
    fn open(&mut self, path: FilePath<'_>) -> Result<Self::Disk, Failed>
        ensures told { IfOk result (λ disk. events self.new ≡ with_event (events self.old) (Opened path.entry.text.now disk)) }
        ensures refused { OnErr result (events self.new ≡ with_event (events self.old) (NotOpened path.entry.text.now)) }
        ensures found { IfOk result (λ disk. holds self.old path.entry.text.now disk) }
        ensures hears_kept { (address : List ℕ) (conns : Self.Conns) → hears self.new address conns → hears self.old address conns }
        ensures cause { HasCause (faults self.old) (faults self.new) result };

    /// The connections that come to an address from now on.
    fn listen(&mut self, address: Address<'_>) -> Result<Self::Conns, Failed>
        ensures told { IfOk result (λ conns. events self.new ≡ with_event (events self.old) (Listened address.entry.text.now conns)) }
        ensures refused { OnErr result (events self.new ≡ with_event (events self.old) (NotListened address.entry.text.now)) }
        ensures heard { IfOk result (λ conns. hears self.old address.entry.text.now conns) }
        ensures cause { HasCause (faults self.old) (faults self.new) result };

    /// Takes connections back, of which no more will come.
    fn end(&mut self, conns: Self::Conns)
        ensures told { events self.new ≡ with_event (events self.old) (Ended conns) }
        ensures ended { ended self.new conns }
        ensures steady { faults self.new ≡ faults self.old };

    /// Takes a disk back.
    fn close(&mut self, disk: Self::Disk)
        ensures told { events self.new ≡ with_event (events self.old) (Closed disk) }
        ensures kept { kept self.new disk }
        ensures ended_kept { (conns : Self.Conns) → ended self.old conns → ended self.new conns }
        ensures steady { faults self.new ≡ faults self.old };
}
