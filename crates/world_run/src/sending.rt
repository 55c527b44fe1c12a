ghost use Rattle.std.specs.Prelude.{◌≡◌, ◌<◌, ◌≤◌, ◌+◌, [], ◌∷◌, ◌++◌, ℕ, List, None, Some, Option, length, map, option_map, is_some, vec_capacity, vec_len, IfOk, false, true};
ghost use Rattle.client_registry.specs.Run.{History};
ghost use Rattle.client_registry.specs.WordBytes.{word_bytes};
ghost use Rattle.keyed_fn.specs.KeyedFn.{keyed_fn};
ghost use Rattle.outside_memory_disk.specs.declared.mem_disk.MemDisk.{MemDisk};
ghost use Rattle.world_disks.specs.declared.stop.Stop.{Stop};
ghost use Rattle.world_model.specs.Events.{as_list};
ghost use Rattle.world_model.specs.World.{Phase};
ghost use Rattle.world_rules.specs.Promises.{StoreWorld};
ghost use Rattle.sse_world.specs.Reached.{IsReached};
ghost use Rattle.sse_world.specs.Stands.{IsLink};
ghost use Rattle.world_client.specs.Answering.{frame_in};
ghost use Rattle.world_run.specs.Sending.{AreReported, CanSend, IsSender, LeadsSending, done_of};
ghost use Rattle.world_run.specs.Sending as sending;
ghost use Rattle.world_run.specs.Sides.{IsClient, client_part, words_asked};

use crate::done::Done;
use crate::running::Running;
use client_registry::Word;
use keyed_fn::Keyed;
use sse_frames::{FRAME_ROOM, Items};
use sse_journal::Journal;
use sse_world::{Link, Outcome};
use std::alloc::{AllocError, Global};
use word_keys::MasterKey;
use world_client::{Gone, Report, State, heard};
use world_server::Replies;

/// The bytes of the greeting: a body of one byte, the kind.
const HELLO: [u8; 5] = [0, 0, 0, 1, 1];

// Promise P325 (caller): What a client in a world sends, and takes of an answer, leads to the next world by the model, with what it reports.
//   clauses: leads; assumes: own keys, earlier calls; not: Out of memory may end a client that was to go on from the server's number.
/// A client takes the answer that waits and sends its next frame, if it has one. One that waits for nothing sends its frame. `asked` are
/// the words of all searches, `key` is the client's key, and the buffer is for the bytes of a reply. Nothing happens where a client waits
/// and no answer is there, where it has nothing to send, or where none runs.
///
/// Without memory nothing changes, but a client that was to go on from the number that the server expects may be gone.
pub fn send<K: Keyed>(
    alloc: Global,
    keyed: &K,
    running: &mut Option<Running>,
    key: &[u8; 32],
    link: &mut Link,
    asked: &Items<Word>,
    done: &mut Vec<Done>,
    buffer: &mut [u8],
) -> Outcome
    requires world { (first : List ℕ) × (w : StoreWorld) × (disk : MemDisk) × (stop : Option Stop) × (other : Option (List ℕ)) × IsReached (keyed_fn K.prf K.pad) first w × IsClient (keyed_fn K.prf K.pad) first (client_part w) running.old disk stop key.now other × IsLink w link.old.sent.frames link.old.waiting × (words_asked w ≡ map word_bytes asked.now) × AreReported w.done done.old.items }
    requires room { 65544 ≤ length buffer.old }
    ensures leads { (first : List ℕ) (w : StoreWorld) (disk : MemDisk) (stop : Option Stop) (other : Option (List ℕ)) → IsReached (keyed_fn K.prf K.pad) first w → IsClient (keyed_fn K.prf K.pad) first (client_part w) running.old disk stop key.now other → IsLink w link.old.sent.frames link.old.waiting → words_asked w ≡ map word_bytes asked.now → AreReported w.done done.old.items →
        LeadsSending (keyed_fn K.prf K.pad) first w result running.new disk stop key.now other link.new.sent.frames link.new.waiting done.new.items }
    ensures long { length buffer.new ≡ length buffer.old }
{
    let Some(it) = running.take() else {
        return Outcome::Nothing;
    };
    let searches = asked.as_slice().len() as u64;
    let (after, outcome) = sent_on(alloc, keyed, it, key, link, searches, done, buffer);
    *running = after;
    outcome
}

/// A client that runs takes the answer, if it waits for one, and else sends its frame.
fn sent_on<K: Keyed>(
    alloc: Global,
    keyed: &K,
    it: Running,
    key: &[u8; 32],
    link: &mut Link,
    searches: u64,
    done: &mut Vec<Done>,
    buffer: &mut [u8],
) -> (Option<Running>, Outcome)
    requires world { (first : List ℕ) × (w : StoreWorld) × (disk : MemDisk) × (stop : Option Stop) × (other : Option (List ℕ)) × IsSender (keyed_fn K.prf K.pad) first w (Some it) disk stop key.now other link.old.sent.frames link.old.waiting done.old.items searches }
    requires room { 65544 ≤ length buffer.old }
    ensures leads { (first : List ℕ) (w : StoreWorld) (disk : MemDisk) (stop : Option Stop) (other : Option (List ℕ)) → IsSender (keyed_fn K.prf K.pad) first w (Some it) disk stop key.now other link.old.sent.frames link.old.waiting done.old.items searches →
        LeadsSending (keyed_fn K.prf K.pad) first w result.1 result.0 disk stop key.now other link.new.sent.frames link.new.waiting done.new.items }
    ensures long { length buffer.new ≡ length buffer.old }
{
    if it.waits {
        return answered(alloc, keyed, it, key, link, searches, done, buffer);
    }
    sent_first(alloc, keyed, it, key, link)
}

/// A client that waits for nothing sends its frame.
fn sent_first<K: Keyed>(
    alloc: Global,
    keyed: &K,
    it: Running,
    key: &[u8; 32],
    link: &mut Link,
) -> (Option<Running>, Outcome)
    requires quiet { it.waits ≡ false }
    requires world { (first : List ℕ) × (w : StoreWorld) × (disk : MemDisk) × (stop : Option Stop) × (other : Option (List ℕ)) × (dones : List Done) × (searches : ℕ) × IsSender (keyed_fn K.prf K.pad) first w (Some it) disk stop key.now other link.old.sent.frames link.old.waiting dones searches }
    ensures leads { (first : List ℕ) (w : StoreWorld) (disk : MemDisk) (stop : Option Stop) (other : Option (List ℕ)) (dones : List Done) (searches : ℕ) → IsSender (keyed_fn K.prf K.pad) first w (Some it) disk stop key.now other link.old.sent.frames link.old.waiting dones searches →
        LeadsSending (keyed_fn K.prf K.pad) first w result.1 result.0 disk stop key.now other link.new.sent.frames link.new.waiting dones }
{
    if is_idle(&it.state) {
        return (Some(it), Outcome::Nothing);
    }
    let Ok(room) = frame_room(alloc, link) else {
        return (Some(it), Outcome::NoMemory);
    };
    let Running {
        state,
        journal,
        waits: _,
    } = it;
    link.waiting = None;
    (
        Some(sent_next(keyed, state, journal, key, link, room)),
        Outcome::Done,
    )
}

/// A client that waits takes the answer, if it is there.
fn answered<K: Keyed>(
    alloc: Global,
    keyed: &K,
    it: Running,
    key: &[u8; 32],
    link: &mut Link,
    searches: u64,
    done: &mut Vec<Done>,
    buffer: &mut [u8],
) -> (Option<Running>, Outcome)
    requires waits { it.waits ≡ true }
    requires world { (first : List ℕ) × (w : StoreWorld) × (disk : MemDisk) × (stop : Option Stop) × (other : Option (List ℕ)) × IsSender (keyed_fn K.prf K.pad) first w (Some it) disk stop key.now other link.old.sent.frames link.old.waiting done.old.items searches }
    requires room { 65544 ≤ length buffer.old }
    ensures leads { (first : List ℕ) (w : StoreWorld) (disk : MemDisk) (stop : Option Stop) (other : Option (List ℕ)) → IsSender (keyed_fn K.prf K.pad) first w (Some it) disk stop key.now other link.old.sent.frames link.old.waiting done.old.items searches →
        LeadsSending (keyed_fn K.prf K.pad) first w result.1 result.0 disk stop key.now other link.new.sent.frames link.new.waiting done.new.items }
    ensures long { length buffer.new ≡ length buffer.old }
{
    let Some(replies) = link.waiting.take() else {
        return (Some(it), Outcome::Nothing);
    };
    let Ok(room) = memory(alloc, link, done) else {
        link.waiting = Some(replies);
        return (Some(it), Outcome::NoMemory);
    };
    goes_on(
        alloc, keyed, it, key, replies, link, searches, done, buffer, room,
    )
}

/// A client takes these replies, reports what is done, and sends its next frame.
fn goes_on<K: Keyed>(
    alloc: Global,
    keyed: &K,
    it: Running,
    key: &[u8; 32],
    replies: Replies,
    link: &mut Link,
    searches: u64,
    done: &mut Vec<Done>,
    buffer: &mut [u8],
    room: Vec<u8>,
) -> (Option<Running>, Outcome)
    requires waits { it.waits ≡ true }
    requires taken { (link.old.waiting ≡ None) × (0 < link.old.sent.room) × (vec_len done.old < vec_capacity done.old) }
    requires world { (first : List ℕ) × (w : StoreWorld) × (disk : MemDisk) × (stop : Option Stop) × (other : Option (List ℕ)) × IsSender (keyed_fn K.prf K.pad) first w (Some it) disk stop key.now other link.old.sent.frames (Some replies) done.old.items searches }
    requires room { (65544 ≤ length buffer.old) × (vec_len room ≡ 0) × (room.items ≡ []) × (541709 ≤ vec_capacity room) }
    ensures leads { (first : List ℕ) (w : StoreWorld) (disk : MemDisk) (stop : Option Stop) (other : Option (List ℕ)) → IsSender (keyed_fn K.prf K.pad) first w (Some it) disk stop key.now other link.old.sent.frames (Some replies) done.old.items searches →
        LeadsSending (keyed_fn K.prf K.pad) first w result.1 result.0 disk stop key.now other link.new.sent.frames link.new.waiting done.new.items }
    ensures long { length buffer.new ≡ length buffer.old }
{
    let Running {
        state,
        journal,
        waits: _,
    } = it;
    match heard(alloc, keyed, state, replies, buffer) {
        Ok((state, report)) => {
            note(done, report, journal.records(), searches);
            (
                Some(sent_next(keyed, state, journal, key, link, room)),
                Outcome::Done,
            )
        }
        Err(Gone::Unwanted) => (None, Outcome::Done),
        Err(Gone::NoMemory) => (None, Outcome::NoMemory),
    }
}

/// Sends the next frame of a client, if it has one, for whose answer it then waits. It takes no memory.
fn sent_next<K: Keyed>(
    keyed: &K,
    state: State,
    journal: Journal,
    key: &[u8; 32],
    link: &mut Link,
    room: Vec<u8>,
) -> Running
    requires client { (first : List ℕ) × (h : History) × (phase : Phase (List ℕ)) × CanSend (keyed_fn K.prf K.pad) first h phase state key.now }
    requires room { (0 < link.old.sent.room) × (vec_len room ≡ 0) × (room.items ≡ []) × (541709 ≤ vec_capacity room) }
    ensures sent { (first : List ℕ) (h : History) (phase : Phase (List ℕ)) → CanSend (keyed_fn K.prf K.pad) first h phase state key.now →
        (link.new.sent.frames ≡ link.old.sent.frames ++ as_list (frame_in (keyed_fn K.prf K.pad) first h phase)) × (result.waits ≡ is_some (frame_in (keyed_fn K.prf K.pad) first h phase)) }
    ensures same { (result.state ≡ state) × (result.journal ≡ journal) × (link.new.waiting ≡ link.old.waiting) }
{
    let waits = match next_bytes(keyed, &state, key, room) {
        Some(frame) => {
            link.sent.push(frame);
            true
        }
        None => false,
    };
    Running {
        state,
        journal,
        waits,
    }
}

/// The bytes of the next frame of a client, in memory that was taken for them; nothing where it has none.
fn next_bytes<K: Keyed>(keyed: &K, state: &State, key: &[u8; 32], room: Vec<u8>) -> Option<Vec<u8>>
    requires client { (first : List ℕ) × (h : History) × (phase : Phase (List ℕ)) × CanSend (keyed_fn K.prf K.pad) first h phase state.now key.now }
    requires room { (vec_len room ≡ 0) × (room.items ≡ []) × (541709 ≤ vec_capacity room) }
    ensures frame { (first : List ℕ) (h : History) (phase : Phase (List ℕ)) → CanSend (keyed_fn K.prf K.pad) first h phase state.now key.now →
        option_map (λ bytes. bytes.items) result ≡ frame_in (keyed_fn K.prf K.pad) first h phase }
{
    match state {
        State::Greeting(_) => Some(filled(room, &HELLO)),
        State::Fresh(_) => None,
        State::Resting(_) => None,
        State::Sending(client) => Some(filled(room, client.frame())),
        State::Asking(client, word) => {
            let master = MasterKey::new(*key).prepare(keyed);
            Some(filled(room, &client.search_frame(&master, word)))
        }
    }
}

/// These bytes, in memory that was taken for them, of which no more is kept than they need.
fn filled(room: Vec<u8>, bytes: &[u8]) -> Vec<u8>
    requires room { (vec_len room ≡ 0) × (room.items ≡ []) × (length bytes.now ≤ vec_capacity room) }
    ensures { result.items ≡ bytes.now }
{
    let mut frame = room;
    frame.extend_from_slice(bytes).unwrap();
    frame.shrink_to_fit();
    frame
}

/// Memory for the bytes of one frame, and for it on the link.
fn frame_room(alloc: Global, link: &mut Link) -> Result<Vec<u8>, AllocError>
    ensures room { IfOk result (λ room. (vec_len room ≡ 0) × (room.items ≡ []) × (541709 ≤ vec_capacity room) × (0 < link.new.sent.room)) }
    ensures same { (link.new.sent.frames ≡ link.old.sent.frames) × (link.new.waiting ≡ link.old.waiting) }
{
    link.sent.reserve()?;
    Vec::with_capacity(alloc, FRAME_ROOM)
}

/// The same, and memory for one report.
fn memory(alloc: Global, link: &mut Link, done: &mut Vec<Done>) -> Result<Vec<u8>, AllocError>
    ensures room { IfOk result (λ room. (vec_len room ≡ 0) × (room.items ≡ []) × (541709 ≤ vec_capacity room) × (0 < link.new.sent.room) × (vec_len done.new < vec_capacity done.new)) }
    ensures same { (link.new.sent.frames ≡ link.old.sent.frames) × (link.new.waiting ≡ link.old.waiting) × (done.new.items ≡ done.old.items) }
{
    done.reserve(1)?;
    frame_room(alloc, link)
}

/// Notes what a client reports, of the last of so many commands or searches.
fn note(done: &mut Vec<Done>, report: Report, commands: u64, searches: u64)
    requires { vec_len done.old < vec_capacity done.old }
    ensures { done.new.items ≡ done.old.items ++ done_of report commands searches }
{
    match report {
        Report::Nothing => {}
        Report::Updated => done.push_reserved(Done::Updated(commands.saturating_sub(1))),
        Report::Found(ids) => done.push_reserved(Done::Found(searches.saturating_sub(1), ids)),
    }
}

/// Whether a client has nothing to send.
fn is_idle(state: &State) -> bool
    ensures { result ≡ sending.is_idle state.now }
{
    match state {
        State::Greeting(_) => false,
        State::Fresh(_) => true,
        State::Resting(_) => true,
        State::Sending(_) => false,
        State::Asking(_, _) => false,
    }
}
