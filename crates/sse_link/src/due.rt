ghost use Rattle.std.specs.Prelude.{◌≡◌, ◌≢◌, ◌↔◌, ◌≤◌, ◌<◌, ℕ, false, not, List, length, take, All, Some, IsTrue, IfSome};
ghost use Rattle.keyed_fn.specs.KeyedFn.{KeyedFn, keyed_fn};
ghost use Rattle.sse_frames.specs.Replies.{Page, StoreFault, reply_bytes};
ghost use Rattle.server_core.specs.State.{ServerState};
ghost use Rattle.server_core.specs.Views.{answer_replies, HasRange, HasBegun};
ghost use Rattle.def_link_events.specs.declared.mark.Mark.TheVariants.{Stepped, LackedMemory, StoreFailed};
ghost use Rattle.sse_link.specs.Due.{waiting, first_of, behind_first, is_more, IsOpenPage, IsDue, CanWrite};
ghost use Rattle.sse_link.specs.Marks.{mark_of};
ghost use Rattle.sse_link.specs.Scripted.{reply_size};

use crate::Mark;
use keyed_fn::Keyed;
use server_core::{Answer, Server, Walk};
use server_tables::Tables;
use sse_frames::{Reply, write_page, write_reply};

/// The identifiers of a page that isn't the last.
pub const FULL_PAGE: usize = 8192;

/// The replies that wait to be received. Beside them stands a page, which begins with the identifiers of the first one
/// of a search.
#[derive(Clone, Copy)]
pub enum Due {
    /// No reply.
    Nothing,
    /// One reply, which isn't a page.
    Single(Reply<'static>),
    /// The pages of a search: the first has so many identifiers, and the walk gives those of the others.
    Pages { count: usize, walk: Walk },
}

impl Due {
    /// The mark of the frame that has these replies.
    pub fn mark(&self) -> Mark
        ensures { result ≡ mark_of self.now }
    {
        match *self {
            Due::Single(Reply::NoMemory) => Mark::LackedMemory,
            Due::Single(Reply::StoreFault) => Mark::StoreFailed,
            _ => Mark::Stepped,
        }
    }

    /// Writes the first of the replies that wait at the front of `out`, and says how many bytes it has.
    pub fn write_first(&self, page: &[u64; FULL_PAGE], out: &mut [u8]) -> usize
        requires due { CanWrite self.now page.now }
        requires room { 65544 ≤ length out.old }
        ensures reply { IfSome (first_of self.now page.now) (λ reply. take result out.new ≡ reply_bytes reply) }
        ensures open { IsTrue (is_more self.now) ↔ IsOpenPage (take result out.new) }
        ensures no_fault { mark_of self.now ≢ StoreFailed → take result out.new ≢ reply_bytes StoreFault }
        ensures least { 4 ≤ result }
        ensures most { result ≤ 65544 }
        ensures one_reply { reply_size (take result out.new) ≡ Some result }
    {
        match *self {
            Due::Nothing => 4,
            Due::Single(reply) => write_reply(&reply, out),
            Due::Pages { count, walk } => write_ids(walk.is_over(), &page[..count], out),
        }
    }

    /// What waits after the first reply: where it is a page that isn't the last, the next page, whose identifiers come
    /// to the front of `page`. Takes no memory.
    pub fn behind_first<K: Keyed, T: Tables>(
        &self,
        keyed: &K,
        server: &Server<T>,
        page: &mut [u64; FULL_PAGE],
    ) -> Due
        requires { IsDue (keyed_fn K.prf K.pad) server.now.state self.now page.old }
        ensures waits { waiting (keyed_fn K.prf K.pad) server.now.state result page.new ≡ behind_first (keyed_fn K.prf K.pad) server.now.state self.now }
        ensures due { IsDue (keyed_fn K.prf K.pad) server.now.state result page.new }
        ensures stepped { mark_of result ≡ Stepped }
    {
        let Due::Pages { mut walk, .. } = *self else {
            return Due::Nothing;
        };
        if walk.is_over() {
            return Due::Nothing;
        }
        let count = server.fill(keyed, &mut walk, page);
        Due::Pages { count, walk }
    }
}

/// The replies of an answer.
pub(crate) fn due_of(answer: Answer) -> Due
    requires { HasRange answer }
    ensures replies { (f : KeyedFn) (s : ServerState) (page : List ℕ) → waiting f s result page ≡ answer_replies f s answer page }
    ensures due { (f : KeyedFn) (s : ServerState) (page : List ℕ) → HasBegun f s answer page → IsDue f s result page }
    ensures stepped { answer ≢ Answer.NoMemory → mark_of result ≡ Stepped }
    ensures no_fault { mark_of result ≢ StoreFailed }
    ensures lacked { answer ≡ Answer.NoMemory → mark_of result ≡ LackedMemory }
{
    match answer {
        Answer::Next(q) => Due::Single(Reply::Next(q)),
        Answer::Took(q) => Due::Single(Reply::Took(q)),
        Answer::Number(next) => Due::Single(Reply::Number(next)),
        Answer::Clash { what, place } => Due::Single(Reply::Clash { what, place }),
        Answer::Found { count, walk } => Due::Pages { count, walk },
        Answer::BadList => Due::Single(Reply::BadList),
        Answer::NoMemory => Due::Single(Reply::NoMemory),
        Answer::OutOfPlace => Due::Single(Reply::OutOfPlace),
    }
}

/// The page of these identifiers, which is the last one or not.
fn write_ids(is_last: bool, ids: &[u64], out: &mut [u8]) -> usize
    requires most { length ids.now ≤ 8192 }
    requires full { is_last ≡ false → length ids.now ≡ 8192 }
    requires ids { All (λ id. 0 < id) ids.now }
    requires room { 65544 ≤ length out.old }
    ensures page { take result out.new ≡ reply_bytes (Page is_last ids.now) }
    ensures open { IsTrue (not is_last) ↔ IsOpenPage (take result out.new) }
    ensures no_fault { take result out.new ≢ reply_bytes StoreFault }
    ensures least { 4 ≤ result }
    ensures most { result ≤ 65544 }
    ensures one_reply { reply_size (take result out.new) ≡ Some result }
{
    write_page(is_last, ids, out)
}
