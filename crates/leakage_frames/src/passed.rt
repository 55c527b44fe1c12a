ghost use Rattle.std.specs.Prelude.{◌≡◌, ℕ, ◌+◌, ◌*◌, ◌<◌, ◌∷◌, ◌++◌, [], List, length, map, IfOk, OnOk};
ghost use Rattle.sse_frames.specs.Exchange.{ForTook, asked, greeting};
ghost use Rattle.sse_frames.specs.Frames.{FrameText, SearchFrame, be32, body_of};
ghost use Rattle.sse_frames.specs.Replies.{Page, reply_bytes};
ghost use Rattle.sse_frames.specs.SentParts as sending;
ghost use Rattle.leakage_frames.specs.MadeFrames.{part_frames, setup_makers, then_updates};
ghost use Rattle.leakage_frames.specs.Steps.{bytes_of, passed_bytes};

use crate::body::{begin_body, end_body, page_body, part_body, search_body, took_body};
use crate::bytes::framed;
use crate::drawn::Section;
use crate::entry::DrawnEntry;
use list_packing::part;
use sse_frames::{BLOCKS_PER_FRAME, ENTRIES_PER_FRAME, Items, NoMemory, PAGE_LEN};
use std::alloc::{AllocError, Global};

/// The body of Hello.
const HELLO: [u8; 1] = [0x01];

/// The body of Next(0).
const NEXT: [u8; 5] = [0x81, 0, 0, 0, 0];

/// What has passed, frames and replies in their order, and the number of the next update frame.
#[derive(Drop)]
pub(crate) struct Passing {
    pub(crate) texts: Items<Items<u8>>,
    pub(crate) next: u64,
}

impl Passing {
    /// The greeting passes, to a server that has taken nothing.
    pub(crate) fn greeted(alloc: Global) -> Result<Passing, NoMemory>
        ensures texts { IfOk result (λ passing. passing.texts ≡ map passed_bytes (greeting 0)) }
        ensures next { IfOk result (λ passing. passing.next ≡ 0) }
    {
        let mut passing = Passing {
            texts: Items::new(alloc),
            next: 0,
        };
        passing.pass(alloc, &HELLO)?;
        passing.pass(alloc, &NEXT)?;
        Ok(passing)
    }

    /// A frame or a reply of this body passes.
    fn pass(&mut self, alloc: Global, body: &[u8]) -> Result<(), NoMemory>
        ensures texts { OnOk result (self.new.texts ≡ self.old.texts ++ (be32 (length body.now) ++ body.now) ∷ []) }
        ensures next { self.new.next ≡ self.old.next }
    {
        let text = framed(alloc, body)?;
        self.texts.push(text)
    }

    /// An update frame of this body passes, and that the server took it. `NoMemory` also where there is no number after its own.
    pub(crate) fn update(&mut self, alloc: Global, body: &[u8]) -> Result<(), NoMemory>
        ensures { OnOk result ((frame : ℕ → FrameText) → asked (frame self.old.next) ≡ ForTook self.old.next → body.now ≡ body_of (frame self.old.next)
            → (rest : List (ℕ → FrameText)) → then_updates self.new rest ≡ then_updates self.old (frame ∷ rest)) }
    {
        self.pass(alloc, body)?;
        let took = took_body(alloc, self.next)?;
        self.pass(alloc, took.as_slice())?;
        match self.next.checked_add(1) {
            Some(next) => {
                self.next = next;
                Ok(())
            }
            None => Err(AllocError),
        }
    }

    /// The frames of a part of a setup pass, so many entries or blocks a frame.
    fn parts(
        &mut self,
        alloc: Global,
        section: Section,
        width: u64,
        size: usize,
        items: &[DrawnEntry<'_>],
    ) -> Result<(), NoMemory>
        requires { 0 < size }
        ensures { OnOk result ((rest : List (ℕ → FrameText)) → then_updates self.new rest ≡ then_updates self.old (part_frames section width size items.now ++ rest)) }
    {
        for i in 0..items.len().div_ceil(size) {
            let body = part_body(alloc, self.next, section, width, part(items, size, i))?;
            self.update(alloc, body.as_slice())?;
        }
        Ok(())
    }

    /// The frames of a setup of these entries and blocks pass, both in the order in which they are sent.
    pub(crate) fn setup(
        &mut self,
        alloc: Global,
        b: u16,
        big: u16,
        entries: &[DrawnEntry<'_>],
        blocks: &[DrawnEntry<'_>],
    ) -> Result<(), NoMemory>
        ensures { OnOk result (then_updates self.new [] ≡ then_updates self.old (setup_makers b big entries.now blocks.now)) }
    {
        let begin = begin_body(alloc, self.next, b, big, entries.len(), blocks.len())?;
        self.update(alloc, begin.as_slice())?;
        self.parts(
            alloc,
            Section::Entries,
            1 + 8 * b as u64,
            ENTRIES_PER_FRAME as usize,
            entries,
        )?;
        self.parts(
            alloc,
            Section::Blocks,
            8 * big as u64,
            BLOCKS_PER_FRAME as usize,
            blocks,
        )?;
        let end = end_body(alloc, self.next)?;
        self.update(alloc, end.as_slice())
    }

    /// A page of an answer passes.
    fn page(&mut self, alloc: Global, last: bool, ids: &[u64]) -> Result<(), NoMemory>
        ensures texts { OnOk result (self.new.texts ≡ self.old.texts ++ reply_bytes (Page last ids.now) ∷ []) }
        ensures next { self.new.next ≡ self.old.next }
    {
        let body = page_body(alloc, last, ids)?;
        self.pass(alloc, body.as_slice())
    }

    /// The pages of an answer pass.
    fn pages(&mut self, alloc: Global, ids: &[u64]) -> Result<(), NoMemory>
        ensures texts { OnOk result (self.new.texts ≡ self.old.texts ++ map reply_bytes (sending.pages ids.now)) }
        ensures next { self.new.next ≡ self.old.next }
    {
        if ids.is_empty() {
            return self.page(alloc, true, ids);
        }
        let count = ids.len().div_ceil(PAGE_LEN as usize);
        for i in 0..count {
            self.page(alloc, i + 1 == count, part(ids, PAGE_LEN as usize, i))?;
        }
        Ok(())
    }

    /// A search with this token passes, and the pages of its answer.
    pub(crate) fn search(
        &mut self,
        alloc: Global,
        token: &[u8],
        found: &[u64],
    ) -> Result<(), NoMemory>
        ensures texts { OnOk result (self.new.texts ≡ self.old.texts ++ bytes_of (found.now ∷ []) (SearchFrame token.now ∷ [])) }
        ensures next { self.new.next ≡ self.old.next }
    {
        let body = search_body(alloc, token)?;
        self.pass(alloc, body.as_slice())?;
        self.pages(alloc, found)
    }
}
