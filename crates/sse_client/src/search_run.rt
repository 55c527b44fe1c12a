ghost use Rattle.std.specs.Prelude.{◌≡◌, ◌≢◌, [], ◌∷◌, Err, map, IfErr, IfOk, OnOk};
ghost use Rattle.client_registry.specs.WordBytes.{word_bytes};
ghost use Rattle.keyed_fn.specs.KeyFormulas.{token_of};
ghost use Rattle.keyed_fn.specs.KeyedFn.{keyed_fn};
ghost use Rattle.script_run_texts.specs.Causes.{PeerCause};
ghost use Rattle.script_run_texts.specs.Stops.{peer_cause};
ghost use Rattle.sse_client.specs.Calls.{shows, KeepsLink};
ghost use Rattle.sse_client.specs.Exchanges.{HasSearched, HasCut, HasOwnMemory, HaveSearched, search_frames};
ghost use Rattle.sse_frames.specs.Frames.{SearchFrame};
ghost use Rattle.sse_script.specs.Shown as says;

use crate::exchange::send;
use crate::peer_fault::stop_of_reply;
use crate::reply_buffer::ReplyBuffer;
use crate::tools::Tools;
use client_core::{Client, Ready};
use client_registry::Word;
use client_replies::{Found, Progress};
use keyed_fn::Keyed;
use script_run_texts::PeerStop;
use sse_link::Link;

// Promise P144, also here; clauses: found, stopped, own_memory
/// Searches the store for a word, and answers the identifiers that came back, rising. Where memory was wanting it was the
/// client's, over an honest link: a server takes none for a search.
pub(crate) fn search<K: Keyed, L: Link>(
    tools: &Tools<'_, K>,
    client: &Client<Ready>,
    word: &Word,
    link: &mut L,
    buffer: &mut ReplyBuffer,
) -> Result<Vec<u64>, PeerStop>
    requires prepared { tools.now.master ≡ client.now.key }
    ensures found { IfOk result (λ found. HasSearched (L.transcript link.old) (L.transcript link.new)
        (SearchFrame (token_of (keyed_fn K.prf K.pad) client.now.key (word_bytes word.now))) found.items) }
    ensures stopped { IfErr result (λ stop. HasCut (L.transcript link.old) (L.transcript link.new)
        (SearchFrame (token_of (keyed_fn K.prf K.pad) client.now.key (word_bytes word.now)) ∷ []) (peer_cause stop)) }
    ensures own_memory { result ≡ Err PeerStop.Memory → HasOwnMemory (keyed_fn K.prf K.pad) (L.transcript link.old) (L.transcript link.new) }
    ensures keeps { KeepsLink PeerCause (shows (L.transcript link.old) (L.faults link.old) (L.began link.old)) (shows (L.transcript link.new) (L.faults link.new) (L.began link.new)) result }
{
    send(link, &client.search_frame(&tools.master, word))?;
    let mut found = Found::new(tools.alloc);
    'pages: loop {
        buffer.receive(link)?;
        let reply = buffer.reply();
        match found.page(reply) {
            Ok(Progress::More) => {}
            Ok(Progress::Done) => return Ok(found.finish()),
            Err(fault) => return Err(stop_of_reply(fault, reply)),
        }
    }
}

// Promise P241 (inside): Each word is asked once, in the order given, and what is answered is what came back for it.
//   clauses: found, stopped, keeps; assumes: observable devices
/// Searches the store for each of these words, in their order, and answers for each the identifiers that came back, rising.
///
/// There is at least one word. The lists have room before anything is sent, so that no answer that came is lost; `spent`
/// says that a caller who is out of memory after the last search may end the run as if that search had been cut.
pub(crate) fn search_all<K: Keyed, L: Link>(
    tools: &Tools<'_, K>,
    client: &Client<Ready>,
    words: &[Word],
    link: &mut L,
    buffer: &mut ReplyBuffer,
) -> Result<Vec<Vec<u64>>, PeerStop>
    requires prepared { tools.now.master ≡ client.now.key }
    requires some { words.now ≢ [] }
    ensures found { IfOk result (λ lists. HaveSearched (L.transcript link.old) (L.transcript link.new)
        (search_frames (keyed_fn K.prf K.pad) client.now.key (map word_bytes words.now)) (map (λ list. list.items) lists.items)) }
    ensures spent { OnOk result (HasCut (L.transcript link.old) (L.transcript link.new)
        (search_frames (keyed_fn K.prf K.pad) client.now.key (map word_bytes words.now)) says.NoMemory) }
    ensures stopped { IfErr result (λ stop. HasCut (L.transcript link.old) (L.transcript link.new)
        (search_frames (keyed_fn K.prf K.pad) client.now.key (map word_bytes words.now)) (peer_cause stop)) }
    ensures keeps { KeepsLink PeerCause (shows (L.transcript link.old) (L.faults link.old) (L.began link.old)) (shows (L.transcript link.new) (L.faults link.new) (L.began link.new)) result }
{
    let mut lists = Vec::with_capacity(tools.alloc, words.len())?;
    for word in words {
        lists.push_reserved(search(tools, client, word, link, buffer)?);
    }
    Ok(lists)
}
