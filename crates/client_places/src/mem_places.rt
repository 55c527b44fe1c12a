ghost use Rattle.std.specs.Prelude.{◌≡◌, Some, None, option_copied, string_bytes};

use crate::Places;
use sse_outside::{Disk, Failed};

/// One disk at one path and one link at one address, in memory. Each is given once, to a call by that name, and kept when it is
/// given back; any other call fails.
#[derive(Drop)]
pub struct MemPlaces<D, L> {
    path: String,
    address: String,
    disk: Option<D>,
    link: Option<L>,
    disk_back: Option<D>,
    link_back: Option<L>,
    faults: u64,
}

impl<D: Disk + Drop, L: Drop> MemPlaces<D, L> {
    ghost use Rattle.client_places.specs.MemPlaces.{disk_at, link_at, disk_closed, link_hung_up};

    /// A disk at a path, and a link at an address.
    pub fn new(path: String, disk: D, address: String, link: L) -> MemPlaces<D, L>
        ensures disk { disk_at result (string_bytes path) disk }
        ensures link { link_at result (string_bytes address) link }
        ensures none_closed { disk_closed result ≡ None }
        ensures none_hung_up { link_hung_up result ≡ None }
    {
        MemPlaces {
            path,
            address,
            disk: Some(disk),
            link: Some(link),
            disk_back: None,
            link_back: None,
            faults: 0,
        }
    }

    /// The disk that was given back.
    pub fn closed_disk(&self) -> Option<&D>
        ensures { option_copied result ≡ disk_closed self.now }
    {
        self.disk_back.as_ref()
    }

    /// The link that was given back.
    pub fn hung_up_link(&self) -> Option<&L>
        ensures { option_copied result ≡ link_hung_up self.now }
    {
        self.link_back.as_ref()
    }
}

impl<D: Disk + Drop, L: Drop> Places for MemPlaces<D, L> {
    ghost use Rattle.client_places.specs.MemPlaces.{disk_at, link_at, disk_closed, link_hung_up, faults_of};

    type Disk = D;

    type Link = L;

    ghost faults = { faults_of };

    ghost events = { λ _. None };

    ghost holds = { disk_at };

    ghost reaches = { link_at };

    ghost kept = { λ p disk. disk_closed p ≡ Some disk };

    ghost hung = { λ p link. link_hung_up p ≡ Some link };

    fn open(&mut self, path: &str) -> Result<D, Failed> {
        if self.path.as_str() == path {
            if let Some(disk) = self.disk.take() {
                return Ok(disk);
            }
        }
        self.faults = self.faults.saturating_add(1);
        Err(Failed)
    }

    fn connect(&mut self, address: &str) -> Result<L, Failed> {
        if self.address.as_str() == address {
            if let Some(link) = self.link.take() {
                return Ok(link);
            }
        }
        self.faults = self.faults.saturating_add(1);
        Err(Failed)
    }

    fn hang_up(&mut self, link: L) {
        self.link_back = Some(link);
    }

    fn close(&mut self, disk: D) {
        self.disk_back = Some(disk);
    }
}
