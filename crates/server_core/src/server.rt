ghost use Rattle.std.specs.Prelude.{◌≡◌, ◌≢◌, ℕ, List, ◌∷◌, true, ◌↔◌, [], All, Some, false, ◌==◌, ◌&&◌, nat_le, ◌+◌, ◌*◌, ◌/◌, ◌-◌, ◌^◌, ◌<◌, ◌≤◌, length, IsSome, IfSome, IsErrAnd, IsOkUnless, OnOk, OnErr, Err, None, take, ◌++◌, IfOk};
ghost use Rattle.std.specs.FinMap as map;
ghost use Rattle.std.specs.Option.{option_map};
ghost use Rattle.sse_frames.specs.Frames.{InGrammar, SearchFrame, update_number};
ghost use Rattle.sse_frames.specs.FrameViews.{frame_view, entries_in, items_in};
ghost use Rattle.keyed_fn.specs.KeyedFn.{KeyedFn, keyed_fn};
ghost use Rattle.server_tables.specs.Contents.{no_contents};
ghost use Rattle.server_core.specs.Search.{search_result};
ghost use Rattle.server_core.specs.State.{ServerState, at_first, is_ready};
ghost use Rattle.server_core.specs.Refusal.{is_nil, in_place, clash, clash_at, refusal};
ghost use Rattle.server_core.specs.Walk.{IsWalk, contents_of, rest_of};
ghost use Rattle.server_core.specs.Step.{taken, answers, step};
ghost use Rattle.server_core.specs.Views.{refuse_reply, cause_reply, answer_replies, HasBegun, HasRange, HasRoom, TakesMemory};

use crate::additions::{add_all, first_added};
use crate::cause::Cause;
use crate::entries::{entry_count, item_count};
use crate::revoked_numbers::{first_missing, first_revoked, restore_all, revoke_all};
use crate::setup_parts::{first_known, push_blocks, put_all};
use crate::walk::{first_page, next_page};
use crate::{Answer, First, Refuse, Stage, Walk, WalkFault};
use keyed_fn::Keyed;
use search_token::Token;
use server_tables::Tables;
use sse_frames::Frame;
use std::alloc::AllocError;
use std::marker::Model;

/// A server: its stage, the number that it expects next, and its tables.
///
/// A contract sees its state, and beside it the room of its tables. What a cell looks like is known here, and not to
/// the tables.
#[derive(Drop)]
pub struct Server<T: Tables> {
    stage: Stage,
    next: u32,
    words: u32,
    blocks: u32,
    b: u16,
    big: u16,
    tables: T,
}

impl<T: Tables> Model for Server<T> {
    ghost use Rattle.server_core.specs.State.{ServerView, view_code, holding};

    ghost Value = { ServerView };

    ghost coded = { view_code };

    ghost use Rattle.server_core.specs.Holds.{IsHeld};

    ghost view = { λ s. record {
      state = holding s.stage s.next s.words s.blocks (record { b = s.b; big = s.big }) (T.contents s.tables);
      room = T.room s.tables;
    } };

    ghost invariant = { λ s. IsHeld (T.contents s.tables) };
}

impl<T: Tables> Server<T> {
    /// A server that has taken nothing, with these tables of nothing. Takes no memory.
    pub fn new(tables: T) -> Server<T>
        requires { T.contents tables ≡ no_contents }
        ensures { result.state ≡ at_first }
    {
        Server {
            stage: Stage::Empty,
            next: 0,
            words: 0,
            blocks: 0,
            b: 0,
            big: 0,
            tables,
        }
    }

    /// The number of the next update frame.
    pub fn next(&self) -> u32
        ensures { result ≡ self.now.state.next }
    {
        self.next
    }

    /// Tests an update frame, and takes the memory that `apply` needs for it.
    ///
    /// Errors, the first that stands: `Number`, `OutOfPlace`, `Clash`, and with none of these `NoMemory`
    /// where there is no memory, which never comes for a frame that begins or ends a setup.
    pub fn prepare(&mut self, frame: &Frame<'_>) -> Result<(), Refuse>
        requires update { IsSome (update_number (frame_view frame.now)) }
        requires grammar { InGrammar (frame_view frame.now) }
        ensures kept { self.new.state ≡ self.old.state }
        ensures refused { IfSome (refusal self.old.state (frame_view frame.now)) (λ reply. IsErrAnd result (λ e. refuse_reply e ≡ reply)) }
        ensures accepted { refusal self.old.state (frame_view frame.now) ≡ None → IsOkUnless result Refuse.NoMemory }
        ensures no_memory { result ≡ Err Refuse.NoMemory → TakesMemory (frame_view frame.now) }
        ensures memory_last { result ≡ Err Refuse.NoMemory → refusal self.old.state (frame_view frame.now) ≡ None }
        ensures room { OnOk result (HasRoom self.new.room (frame_view frame.now)) }
    {
        match self.refusal(frame) {
            Some(Cause::Number(next)) => Err(Refuse::Number(next)),
            Some(Cause::OutOfPlace) => Err(Refuse::OutOfPlace),
            Some(Cause::Clash { what, place }) => Err(Refuse::Clash { what, place }),
            None => {
                self.make_room(frame)?;
                Ok(())
            }
        }
    }

    /// Takes an update frame that `prepare` found to be in order. Takes no memory, and can't fail.
    pub fn apply(&mut self, frame: &Frame<'_>)
        requires update { IsSome (update_number (frame_view frame.now)) }
        requires grammar { InGrammar (frame_view frame.now) }
        requires accepted { refusal self.old.state (frame_view frame.now) ≡ None }
        requires room { HasRoom self.old.room (frame_view frame.now) }
        ensures { self.new.state ≡ taken self.old.state (frame_view frame.now) }
    {
        match *frame {
            Frame::SetupBegin { b, big, m, a, .. } => {
                self.stage = Stage::Filling;
                self.words = m;
                self.blocks = a;
                self.b = b;
                self.big = big;
                self.tables.clear();
                self.next += 1;
            }
            Frame::SetupDict { width, entries, .. } => {
                put_all(&mut self.tables, entries, usize::from(width));
                self.next += 1;
            }
            Frame::SetupEnd { .. } => {
                self.stage = Stage::Ready;
                self.next += 1;
            }
            Frame::SetupArray { width, blocks, .. } => {
                push_blocks(&mut self.tables, blocks, usize::from(width));
                self.next += 1;
            }
            Frame::Add {
                entries,
                numbers,
                ..
            } => {
                add_all(&mut self.tables, entries);
                restore_all(&mut self.tables, numbers);
                self.next += 1;
            }
            Frame::Delete { numbers, .. } => {
                revoke_all(&mut self.tables, numbers);
                self.next += 1;
            }
            // Neither is an update frame.
            Frame::Hello | Frame::Search { .. } => {}
        }
    }

    // Promise P91 (caller): A search yields, page by page and without memory, the list its look-ups give, or says first that there is none.
    //   clauses: first, walk, bad_list, out_of_place, full, room, ids; assumes: earlier calls; not: That the list is the right one: P149 says it for a history that was sent.
    /// Opens the whole way of a search, and hands out what it gives first, as many identifiers as fit the page: those of
    /// setup, in its order, then those added, in the order in which they came, without the deleted ones. The walk goes on
    /// after them. Over a page of no identifiers it only begins.
    ///
    /// Errors: `OutOfPlace` before the setup is whole; `BadList` where what stands under the token's labels is no list.
    /// Takes no memory.
    pub fn walk<K: Keyed>(
        &self,
        keyed: &K,
        token: &Token,
        page: &mut [u64],
    ) -> Result<First, WalkFault>
        ensures out_of_place { (result ≡ Err WalkFault.OutOfPlace) ↔ (is_ready self.now.state.stage ≡ false) }
        ensures bad_list { result ≡ Err WalkFault.BadList → search_result (keyed_fn K.prf K.pad) self.now.state token.now ≡ None }
        ensures first { IfOk result (λ first. search_result (keyed_fn K.prf K.pad) self.now.state token.now ≡ Some (take first.count page.new ++ rest_of (keyed_fn K.prf K.pad) (contents_of self.now.state) first.walk)) }
        ensures walk { IfOk result (λ first. IsWalk (keyed_fn K.prf K.pad) (contents_of self.now.state) first.walk) }
        ensures room { IfOk result (λ first. first.count ≤ length page.new) }
        ensures full { IfOk result (λ first. first.walk.is_over ≡ false → first.count ≡ length page.new) }
        ensures ids { IfOk result (λ first. All (λ id. 0 < id) (take first.count page.new)) }
        ensures long { length page.new ≡ length page.old }
    {
        if !self.stage.is_ready() {
            return Err(WalkFault::OutOfPlace);
        }
        match first_page(&self.tables, keyed, token, page) {
            Ok(first) => Ok(first),
            Err(_) => Err(WalkFault::BadList),
        }
    }

    // Promise P91, also here; clauses: handed, walk, full, room, ids
    /// Hands out what a walk gives next, as many identifiers as fit the page. The server is as it was when the walk began.
    /// Takes no memory.
    pub fn fill<K: Keyed>(&self, keyed: &K, walk: &mut Walk, page: &mut [u64]) -> usize
        requires walk { IsWalk (keyed_fn K.prf K.pad) (contents_of self.now.state) walk.old }
        requires some { 0 < length page.old }
        ensures handed { rest_of (keyed_fn K.prf K.pad) (contents_of self.now.state) walk.old ≡ take result page.new ++ rest_of (keyed_fn K.prf K.pad) (contents_of self.now.state) walk.new }
        ensures walk { IsWalk (keyed_fn K.prf K.pad) (contents_of self.now.state) walk.new }
        ensures room { result ≤ length page.new }
        ensures full { walk.new.is_over ≡ false → result ≡ length page.new }
        ensures ids { All (λ id. 0 < id) (take result page.new) }
        ensures long { length page.new ≡ length page.old }
    {
        next_page(&self.tables, keyed, walk, page)
    }

    // Promise P88 (caller): The server takes a frame exactly as its step says, or is out of memory and unchanged.
    //   clauses: state, replies, begun, no_memory, memory_last; assumes: sizes in bounds; not: How long it takes. Out of memory comes only for an update frame that nothing else refuses;
    //     a search takes no memory.
    /// The answer to a frame: the server's step, by `prepare` and `apply`, `walk` or `next`. After `Found` the page begins
    /// with what the search gives first.
    ///
    /// `NoMemory` where there is no memory, which comes only for an update frame that brings something to keep and isn't
    /// refused for another cause; the server's state is then as before. A search takes none.
    pub fn handle<K: Keyed>(&mut self, keyed: &K, frame: &Frame<'_>, page: &mut [u64]) -> Answer
        requires { InGrammar (frame_view frame.now) }
        ensures state { result ≢ Answer.NoMemory → self.new.state ≡ (step (keyed_fn K.prf K.pad) self.old.state (frame_view frame.now)).0 }
        ensures replies { result ≢ Answer.NoMemory → answer_replies (keyed_fn K.prf K.pad) self.new.state result page.new ≡ (step (keyed_fn K.prf K.pad) self.old.state (frame_view frame.now)).1 }
        ensures begun { HasBegun (keyed_fn K.prf K.pad) self.new.state result page.new }
        ensures no_memory { result ≡ Answer.NoMemory → (self.new.state ≡ self.old.state) × TakesMemory (frame_view frame.now) }
        ensures memory_last { result ≡ Answer.NoMemory → refusal self.old.state (frame_view frame.now) ≡ None }
        ensures range { HasRange result }
        ensures long { length page.new ≡ length page.old }
    {
        match *frame {
            Frame::Hello => Answer::Next(self.next),
            Frame::SetupBegin { .. } => self.answer_update(frame),
            Frame::SetupDict { .. } => self.answer_update(frame),
            Frame::SetupArray { .. } => self.answer_update(frame),
            Frame::SetupEnd { .. } => self.answer_update(frame),
            Frame::Add { .. } => self.answer_update(frame),
            Frame::Delete { .. } => self.answer_update(frame),
            Frame::Search { token } => self.answer_search(keyed, token, page),
        }
    }

    /// The answer to an update frame: the refusal, or that it was taken.
    fn answer_update(&mut self, frame: &Frame<'_>) -> Answer
        requires update { IsSome (update_number (frame_view frame.now)) }
        requires grammar { InGrammar (frame_view frame.now) }
        ensures refused { IfSome (refusal self.old.state (frame_view frame.now)) (λ reply. (self.new.state ≡ self.old.state) × ((f : KeyedFn) (s : ServerState) (page : List ℕ) → answer_replies f s result page ≡ reply ∷ [])) }
        ensures taken { refusal self.old.state (frame_view frame.now) ≡ None → result ≢ Answer.NoMemory → (self.new.state ≡ taken self.old.state (frame_view frame.now)) × (Some self.old.state.next ≡ update_number (frame_view frame.now)) × (result ≡ Answer.Took self.old.state.next) }
        ensures no_memory { result ≡ Answer.NoMemory → (self.new.state ≡ self.old.state) × TakesMemory (frame_view frame.now) }
        ensures memory_last { result ≡ Answer.NoMemory → refusal self.old.state (frame_view frame.now) ≡ None }
        ensures no_search { (f : KeyedFn) (s : ServerState) (page : List ℕ) → HasBegun f s result page }
        ensures range { HasRange result }
    {
        let q = self.next;
        match self.prepare(frame) {
            Ok(()) => {
                self.apply(frame);
                Answer::Took(q)
            }
            Err(refuse) => Answer::from(refuse),
        }
    }

    /// The answer to a search with the 160 bytes of a token; the page begins with what it gives first.
    fn answer_search<K: Keyed>(&self, keyed: &K, token: &[u8], page: &mut [u64]) -> Answer
        requires { length token.now ≡ 160 }
        ensures ready { is_ready self.now.state.stage ≡ true → answer_replies (keyed_fn K.prf K.pad) self.now.state result page.new ≡ answers (keyed_fn K.prf K.pad) self.now.state (SearchFrame token.now) }
        ensures not_ready { is_ready self.now.state.stage ≡ false → result ≡ Answer.OutOfPlace }
        ensures begun { HasBegun (keyed_fn K.prf K.pad) self.now.state result page.new }
        ensures memory { result ≢ Answer.NoMemory }
        ensures range { HasRange result }
        ensures long { length page.new ≡ length page.old }
    {
        let Some((bytes, _)) = token.split_first_chunk::<160>() else {
            return Answer::OutOfPlace;
        };
        match self.walk(keyed, &Token::from_bytes(bytes), page) {
            Ok(First { count, walk }) => Answer::Found { count, walk },
            Err(WalkFault::OutOfPlace) => Answer::OutOfPlace,
            Err(WalkFault::BadList) => Answer::BadList,
        }
    }

    /// The first cause that stands.
    fn refusal(&self, frame: &Frame<'_>) -> Option<Cause>
        requires { InGrammar (frame_view frame.now) }
        ensures { option_map cause_reply result ≡ refusal self.now.state (frame_view frame.now) }
    {
        if let Some(q) = frame.update_number()
            && q != self.next
        {
            return Some(Cause::Number(self.next));
        }
        if !self.is_in_place(frame) {
            return Some(Cause::OutOfPlace);
        }
        self.clash(frame)
    }

    /// Whether the frame is one for this stage.
    fn is_in_place(&self, frame: &Frame<'_>) -> bool
        requires { InGrammar (frame_view frame.now) }
        ensures { result ≡ in_place self.now.state (frame_view frame.now) }
    {
        match *frame {
            Frame::Hello => true,
            Frame::SetupBegin { .. } => !self.stage.is_filling(),
            Frame::SetupDict { width, entries, .. } => self.stage.is_filling()
                && self.has_place(width, entries),
            Frame::SetupEnd { .. } => self.stage.is_filling() && self.is_whole(),
            Frame::SetupArray { width, blocks, .. } => self.stage.is_filling()
                && self.has_place_behind(width, blocks),
            Frame::Add { .. } | Frame::Delete { .. } => self.stage.is_ready(),
            Frame::Search { .. } => self.stage.is_ready(),
        }
    }

    /// Whether the entries are cells of this setup, and no more than it still lacks.
    fn has_place(&self, width: u16, entries: &[u8]) -> bool
        ensures { result ≡ ((width == 1 + 8 * self.now.state.shape.b) && is_nil self.now.state.array && nat_le (map.len self.now.state.dictionary + length (entries_in width entries.now)) self.now.state.words) }
    {
        let words = self.words as usize;
        let held = self.tables.entry_len();
        if usize::from(width) != 1 + 8 * usize::from(self.b)
            || self.tables.block_len() != 0
            || held > words
        {
            return false;
        }
        entry_count(entries, width) <= words - held
    }

    /// Whether the blocks are blocks of this setup, which has all its entries, and no more than it still lacks.
    fn has_place_behind(&self, width: u16, blocks: &[u8]) -> bool
        requires { 0 < width }
        ensures { result ≡ ((width == 8 * self.now.state.shape.big) && (map.len self.now.state.dictionary == self.now.state.words) && nat_le (length self.now.state.array + length (items_in width blocks.now)) self.now.state.blocks) }
    {
        let most = self.blocks as usize;
        let held = self.tables.block_len();
        if usize::from(width) != 8 * usize::from(self.big)
            || self.tables.entry_len() != self.words as usize
            || held > most
        {
            return false;
        }
        item_count(blocks, width) <= most - held
    }

    /// Whether the setup has all its entries and blocks.
    fn is_whole(&self) -> bool
        ensures { result ≡ ((map.len self.now.state.dictionary == self.now.state.words) && (length self.now.state.array == self.now.state.blocks)) }
    {
        self.tables.entry_len() == self.words as usize
            && self.tables.block_len() == self.blocks as usize
    }

    /// The first collision of a frame that is in place with what the server holds.
    fn clash(&self, frame: &Frame<'_>) -> Option<Cause>
        requires grammar { InGrammar (frame_view frame.now) }
        requires placed { in_place self.now.state (frame_view frame.now) ≡ true }
        ensures { option_map cause_reply result ≡ clash self.now.state (frame_view frame.now) }
    {
        match *frame {
            Frame::SetupDict { width, entries, .. } => clash_at(
                1,
                first_known(&self.tables, entries, usize::from(width)),
            ),
            Frame::Add {
                entries,
                numbers,
                ..
            } => {
                let added = first_added(&self.tables, entries);
                if added.is_some() {
                    return clash_at(2, added);
                }
                clash_at(3, first_missing(&self.tables, numbers))
            }
            Frame::Delete { numbers, .. } => clash_at(3, first_revoked(&self.tables, numbers)),
            _ => None,
        }
    }

    /// Takes the memory that `apply` needs for a frame.
    fn make_room(&mut self, frame: &Frame<'_>) -> Result<(), AllocError>
        requires { InGrammar (frame_view frame.now) }
        ensures kept { self.new.state ≡ self.old.state }
        ensures room { OnOk result (HasRoom self.new.room (frame_view frame.now)) }
        ensures err { OnErr result (TakesMemory (frame_view frame.now)) }
    {
        match *frame {
            Frame::SetupDict { width, entries, .. } => {
                let count = entry_count(entries, width);
                self.tables.reserve(count, usize::from(width), 0, 0, 0, 0)
            }
            Frame::SetupArray { width, blocks, .. } => {
                let count = item_count(blocks, width);
                self.tables.reserve(0, 0, count, usize::from(width), 0, 0)
            }
            Frame::Add { entries, .. } => {
                let count = entry_count(entries, 8);
                self.tables.reserve(0, 0, 0, 0, count, 0)
            }
            Frame::Delete { numbers, .. } => {
                let count = item_count(numbers, 16);
                self.tables.reserve(0, 0, 0, 0, 0, count)
            }
            _ => Ok(()),
        }
    }
}

/// The collision at this place of a frame's list, where there is one: of labels of lists (1), of labels of additions (2),
/// or of revocation numbers (3).
fn clash_at(what: u8, place: Option<usize>) -> Option<Cause>
    requires { IfSome place (λ at. at < 2 ^ 32) }
    ensures { option_map cause_reply result ≡ clash_at what place }
{
    let place = place? as u32;
    Some(Cause::Clash { what, place })
}
