ghost use Rattle.std.specs.Prelude.{◌≡◌, ◌≢◌, ◌≤◌, ◌+◌, ◌/◌, ◌++◌, Bool, Err, IsOk, List, ℕ, length, vec_capacity, vec_len, OnErr, OnOk};
ghost use Rattle.std.specs.Int.{w64, from_be_bytes};
ghost use Rattle.sse_frames.specs.FrameViews.{numbers_in};
ghost use Rattle.client_replies.specs.Pages.{is_done};

use crate::page_in::page_in;
use crate::reply_fault::{ReplyFault, fault_of};
use std::alloc::{AllocError, Global};
use std::marker::Model;

/// How many pages an answer has at most.
pub const MAX_PAGES: u32 = 1 << 20;

/// The identifiers of the pages of a search that came so far.
#[derive(Drop)]
pub struct Found {
    ids: Vec<u64>,
    pages: u32,
}

impl Model for Found {
    ghost use Rattle.std.specs.Prelude.{◌-◌, ◌≤◌, ◌^◌, vec_capacity, vec_len};
    ghost use Rattle.client_replies.specs.Gathered.{Gathered};

    ghost Value = { Gathered };

    ghost view = { λ f. record { ids = f.ids.items; pages = f.pages; room = vec_capacity f.ids - vec_len f.ids } };

    ghost invariant = { λ f. f.pages ≤ 2 ^ 20 };
}

/// Whether a search has more pages to come.
#[derive(Debug, Clone, Copy, PartialEq, Eq)]
pub enum Progress {
    More,
    Done,
}

impl Found {
    ghost use Rattle.std.specs.Prelude.{[], false, IsErrOf};
    ghost use Rattle.client_registry.specs.Live.{in_order};
    ghost use Rattle.sse_frames.specs.ReadOutcomes.{IsReply};
    ghost use Rattle.sse_frames.specs.Replies.{reply_bytes, Page, StoreFault};
    ghost use Rattle.client_replies.specs.Pages.{AfterPage};

    /// No page has come.
    pub fn new(alloc: Global) -> Found
        ensures pages { result.pages ≡ 0 }
        ensures ids { result.ids ≡ [] }
    {
        Found {
            ids: Vec::new(alloc),
            pages: 0,
        }
    }

    // Promise P56 (caller): A reply to a search is taken if and only if it is a page that may follow; its identifiers come out rising.
    //   clauses: after, taken; not: Out of memory may come in place of taking a page. Repeated identifiers stay.
    /// Takes the next page, with its four length bytes. A page that isn't the last holds 8,192
    /// identifiers, a last one that isn't the first at least one, and there are at most 2^20 pages;
    /// else it is `BadReply`. After a refusal the pages taken are as before. `OutOfMemory` comes only where a page that may
    /// follow finds no room beside the identifiers that came.
    pub fn page(&mut self, reply: &[u8]) -> Result<Progress, ReplyFault>
        ensures after { AfterPage self.old reply.now self.new result }
        ensures counted { OnOk result (self.new.pages ≡ self.old.pages + 1) }
        ensures more { result ≡ Ok Progress.More → (ids : _) × (reply.now ≡ reply_bytes (Page false ids)) }
        ensures kept { OnErr result (self.new.ids ≡ self.old.ids) }
        ensures kept_pages { OnErr result (self.new.pages ≡ self.old.pages) }
        ensures store { IsErrOf result ReplyFault.StoreFault → reply.now ≡ reply_bytes StoreFault }
        ensures taken { (last : Bool) (ids : List ℕ) → IsReply (Page last ids) reply.now → length ids ≤ self.old.room → result ≢ Err ReplyFault.OutOfMemory }
    {
        let Some((last, ids)) = page_in(reply) else {
            return Err(fault_of(reply));
        };
        if self.pages == MAX_PAGES || (self.pages > 0 && ids.is_empty()) {
            return Err(ReplyFault::BadReply);
        }
        append_ids(&mut self.ids, ids)?;
        self.pages += 1;
        Ok(progress_of(last))
    }

    // Promise P56, also here; clauses: ensures
    /// The identifiers that came, rising, repeats included.
    pub fn finish(self) -> Vec<u64>
        ensures { result.items ≡ in_order self.ids }
    {
        let Found { mut ids, pages: _ } = self;
        ids.sort_unstable();
        ids
    }
}

/// Whether pages are to come behind one that is the last, or isn't.
fn progress_of(last: bool) -> Progress
    ensures { is_done result ≡ last }
{
    if last { Progress::Done } else { Progress::More }
}

/// Appends the identifiers, 8 bytes each, high byte first; all of them or none.
fn append_ids(out: &mut Vec<u64>, ids: &[u8]) -> Result<(), AllocError>
    ensures ok { OnOk result (out.new.items ≡ out.old.items ++ numbers_in ids.now) }
    ensures err { OnErr result (out.new.items ≡ out.old.items) }
    ensures succeeds { vec_len out.old + length ids.now / 8 ≤ vec_capacity out.old → IsOk result }
{
    let count = ids.len() / 8;
    out.reserve(count)?;
    for i in 0..count {
        out.push_reserved(number_of(&ids[8 * i..8 * i + 8]));
    }
    Ok(())
}

/// The number of 8 bytes, high byte first.
fn number_of(bytes: &[u8]) -> u64
    requires { length bytes.now ≡ 8 }
    ensures { result ≡ from_be_bytes w64 bytes.now }
{
    match bytes {
        [a, b, c, d, e, f, g, h] => u64::from_be_bytes([*a, *b, *c, *d, *e, *f, *g, *h]),
        _ => 0,
    }
}
