ghost use Rattle.std.specs.Prelude.{◌≡◌, ℕ, List, IfOk, OnErr};
ghost use Rattle.std.specs.declared.option.Option.{Option};
ghost use Rattle.sse_outside.specs.Causes.{HasCause};
ghost use Rattle.client_places.specs.Events.{Event, Opened, NotOpened, Connected, NotConnected, HungUp, Closed, with_event};

use sse_outside::{Disk, Failed};

/// Where a client's disk and its link come from.
///
/// It tells contracts its count of faults (`faults`), which disks an open of a path may give (`holds`) and which links may reach
/// an address (`reaches`), and which disk and link were given back last (`kept`, `hung`). Where it can, it also tells what it was
/// asked for, in order, with what it gave and got back (`events`).
pub trait Places {
    type Disk: Disk + Drop;

    type Link: Drop;

    ghost faults: { Self → ℕ };

    ghost events: { Self → Option (List (Event Self.Disk Self.Link)) };

    ghost holds: { Self → List ℕ → Self.Disk → Type 0 };

    ghost reaches: { Self → List ℕ → Self.Link → Type 0 };

    ghost kept: { Self → Self.Disk → Type 0 };

    ghost hung: { Self → Self.Link → Type 0 };

    /// Opens the file of a path, which is made where it isn't there. What an address reaches stays.
    fn open(&mut self, path: &str) -> Result<Self::Disk, Failed>
        ensures told { IfOk result (λ disk. events self.new ≡ with_event (events self.old) (Opened path.now disk)) }
        ensures refused { OnErr result (events self.new ≡ with_event (events self.old) (NotOpened path.now)) }
        ensures found { IfOk result (λ disk. holds self.old path.now disk) }
        ensures reaches_kept { (address : List ℕ) (link : Self.Link) → reaches self.new address link → reaches self.old address link }
        ensures cause { HasCause (faults self.old) (faults self.new) result };

    /// Connects to the server at an address.
    fn connect(&mut self, address: &str) -> Result<Self::Link, Failed>
        ensures told { IfOk result (λ link. events self.new ≡ with_event (events self.old) (Connected address.now link)) }
        ensures refused { OnErr result (events self.new ≡ with_event (events self.old) (NotConnected address.now)) }
        ensures reached { IfOk result (λ link. reaches self.old address.now link) }
        ensures cause { HasCause (faults self.old) (faults self.new) result };

    /// Takes a link back, over which no more will pass.
    fn hang_up(&mut self, link: Self::Link)
        ensures told { events self.new ≡ with_event (events self.old) (HungUp link) }
        ensures hung { hung self.new link }
        ensures steady { faults self.new ≡ faults self.old };

    /// Takes a disk back.
    fn close(&mut self, disk: Self::Disk)
        ensures told { events self.new ≡ with_event (events self.old) (Closed disk) }
        ensures kept { kept self.new disk }
        ensures hung_kept { (link : Self.Link) → hung self.old link → hung self.new link }
        ensures steady { faults self.new ≡ faults self.old };
}
