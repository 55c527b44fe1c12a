ghost use Rattle.std.specs.Prelude.{◌≡◌, ◌+◌, ◌<◌, ◌^◌, IfOk, Some, map, option_map};
ghost use Rattle.std.specs.Option.{option_or};
ghost use Rattle.leakage_model.specs.Pairs.{home_view as home_of};
ghost use Rattle.leakage_frames.specs.Views.{home_view, origin_view};

use leakage_frames::{Home, Origin};
use sse_frames::Items;
use std::alloc::{AllocError, Global};

/// What is kept of a pair of a word and an identifier that is listed.
#[derive(Clone, Copy)]
pub(crate) struct Pair {
    /// What listed it.
    pub(crate) origin: Origin,
    /// Where its revocation number was first sent.
    pub(crate) number: Option<Origin>,
    pub(crate) revoked: bool,
}

impl Pair {
    /// Its revocation number is sent there, and it is revoked then or not.
    pub(crate) fn send(&mut self, there: Origin, revoked: bool)
        ensures origin { self.new.origin ≡ self.old.origin }
        ensures number { option_map origin_view self.new.number ≡ option_or (option_map origin_view self.old.number) (Some (origin_view there)) }
        ensures revoked { self.new.revoked ≡ revoked }
    {
        self.number = self.number.or(Some(there));
        self.revoked = revoked;
    }
}

/// Where the setup holds a word: the number of its entry, the position of its first block, and the position after its last one.
#[derive(Clone, Copy)]
pub(crate) struct HomeAt {
    pub(crate) entry: u32,
    pub(crate) first: u32,
    pub(crate) end: u32,
}

impl HomeAt {
    /// The same with the position of each block.
    pub(crate) fn home(&self, alloc: Global) -> Result<Home, AllocError>
        ensures { IfOk result (λ home. home_view home ≡ home_of self.now) }
    {
        let mut blocks = Items::new(alloc);
        for position in self.first..self.end {
            blocks.push(position)?;
        }
        Ok(Home {
            entry: self.entry,
            blocks,
        })
    }
}
