ghost use Rattle.std.specs.Prelude.{◌≡◌, ◌≢◌, ℕ, [], length, IfErr, IfOk};
ghost use Rattle.bool_search.specs.Asked.{tree_in, words_in};
ghost use Rattle.bool_search.specs.Chosen.{chosen};
ghost use Rattle.keyed_fn.specs.KeyedFn.{keyed_fn};
ghost use Rattle.script_run_texts.specs.Causes.{CommandCause, KeepCommandCause, PeerCause};
ghost use Rattle.script_run_texts.specs.Stops.{command_cause, peer_cause};
ghost use Rattle.sse_client.specs.Calls.{shows, KeepsLink};
ghost use Rattle.sse_client.specs.Exchanges.{HasCut, search_frames};
ghost use Rattle.sse_client.specs.Queried.{HasChosen, HasQueried, StopsQuery};

use crate::reply_buffer::ReplyBuffer;
use crate::search_run::search_all;
use crate::session::refusal_of;
use crate::tools::Tools;
use bool_search::Query;
use client_core::{Client, Ready};
use keyed_fn::Keyed;
use script_documents::LineFault;
use script_run_texts::{CommandStop, LineResult, PeerStop};
use sse_link::Link;
use sse_script::Fields;

// Promise P242 (inside): A query is refused for its first fault before anything is sent; otherwise each word is asked once and it chooses among the answers.
//   clauses: came, stopped; assumes: observable devices
/// Carries out a query: searches for each of its different words, in the order of their first appearance, and chooses among
/// the identifiers that came back. The client's own registry isn't asked.
pub(crate) fn run_query<K: Keyed, L: Link>(
    tools: &Tools<'_, K>,
    client: &Client<Ready>,
    fields: Fields<'_>,
    link: &mut L,
    buffer: &mut ReplyBuffer,
) -> Result<LineResult, CommandStop>
    requires prepared { tools.now.master ≡ client.now.key }
    ensures came { IfOk result (λ came. HasQueried (keyed_fn K.prf K.pad) client.now.key fields.entry (L.transcript link.old) (L.transcript link.new) came) }
    ensures stopped { IfErr result (λ stop. StopsQuery (keyed_fn K.prf K.pad) client.now.key fields.entry (L.transcript link.old) (L.transcript link.new) (command_cause stop)) }
    ensures no_record { IfErr result (λ stop. (n : ℕ) → KeepCommandCause n n stop) }
    ensures keeps { KeepsLink CommandCause (shows (L.transcript link.old) (L.faults link.old) (L.began link.old)) (shows (L.transcript link.new) (L.faults link.new) (L.began link.new)) result }
{
    match Query::read(tools.alloc, fields) {
        Ok(query) => Ok(LineResult::Matched(choose(tools, client, &query, link, buffer)?)),
        Err(fault) => refusal_of(Err(LineFault::from(fault))),
    }
}

/// The identifiers that a query chooses among those that its searches brought.
fn choose<K: Keyed, L: Link>(
    tools: &Tools<'_, K>,
    client: &Client<Ready>,
    query: &Query,
    link: &mut L,
    buffer: &mut ReplyBuffer,
) -> Result<Vec<u64>, PeerStop>
    requires prepared { tools.now.master ≡ client.now.key }
    requires some { words_in query.now ≢ [] }
    ensures chosen { IfOk result (λ ids. HasChosen (L.transcript link.old) (L.transcript link.new)
        (search_frames (keyed_fn K.prf K.pad) client.now.key (words_in query.now)) (length (words_in query.now)) (chosen (tree_in query.now)) ids.items) }
    ensures stopped { IfErr result (λ stop. HasCut (L.transcript link.old) (L.transcript link.new)
        (search_frames (keyed_fn K.prf K.pad) client.now.key (words_in query.now)) (peer_cause stop)) }
    ensures keeps { KeepsLink PeerCause (shows (L.transcript link.old) (L.faults link.old) (L.began link.old)) (shows (L.transcript link.new) (L.faults link.new) (L.began link.new)) result }
{
    let lists = search_all(tools, client, query.words(), link, buffer)?;
    Ok(query.answer(tools.alloc, &lists)?)
}
