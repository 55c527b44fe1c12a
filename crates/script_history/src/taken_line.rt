ghost use Rattle.std.specs.Prelude.{◌≡◌, ◌≢◌, ◌≤◌, ◌^◌, ◌∷◌, [], IfOk, IsSome, None, OnErr, Some, length, map};
ghost use Rattle.script_documents.specs.LineDocument.{document};
ghost use Rattle.script_documents.specs.LineFaults.{SaysRefusal};
ghost use Rattle.script_documents.specs.Refused.{bad_word, collect_refusal};
ghost use Rattle.script_run_texts.specs.LineWords.{words_in};
ghost use Rattle.def_script_meaning.specs.Lines as requests;
ghost use Rattle.def_script_meaning.specs.Lines.{Request};
ghost use Rattle.def_script_meaning.specs.Refused.{delete_refusal, index_refusal, size_refused};
ghost use Rattle.sse_script.specs.Views.{line_view};
ghost use Rattle.def_script_meaning.specs.Lines.{line_read};
ghost use Rattle.keyed_fn.specs.KeyFormulas.{mark_of};
ghost use Rattle.keyed_fn.specs.KeyedFn.{keyed_fn};
ghost use Rattle.sse_script.specs.declared.refusal.Refusal.{Refusal as Reason};
ghost use Rattle.std.specs.declared.option.Option.{Option};
ghost use Rattle.client_registry.specs.Acceptance.{size_refusal};
ghost use Rattle.client_registry.specs.Command.{Add, Delete, Search};
ghost use Rattle.client_registry.specs.HashNumbers.{hash_numbers};
ghost use Rattle.client_registry.specs.Setup.{setup_with};
ghost use Rattle.leakage_history.specs.HashedEpochs.{epochs_in};
ghost use Rattle.bool_search.specs.Fields.{words_of};
ghost use Rattle.script_history.specs.Numbered.{epochs_after, epochs_after_all, epochs_renewed, renew_refusal};
ghost use Rattle.script_history.specs.Stages.{CarriesOut, IsSetUp, KeepsKey, MayStop, MayStopHere, RenewalMayStop, Takes, TakesAfter, collected_after, keys_at, read_add_refusal, read_delete_refusal, read_find_refusal, read_query_refusal};
ghost use Rattle.script_history.specs.UsedKeys.{known_after, known_refusal, marks_known};
ghost use Rattle.std.specs.Option.{option_or};

use crate::numbered_history::NumberedHistory;
use crate::stage::{Stage, Standing};
use crate::used_keys::{UsedKeys, epoch_of};
use bool_search::Query;
use client_registry::{DocId, Docs, HashKeys, SizeFault, Sizes, size_of};
use keyed_fn::Keyed;
use leakage_history::Command;
use script_documents::{LineFault, add_document, document_of, word_of};
use sse_script::{Fields, Line, Refusal};
use std::alloc::{AllocError, Global};
use word_keys::MasterKey;

// Promise P74 (inside): Reading a script, a line is refused for the same cause as in a run, or as full; otherwise it is taken.
//   clauses: takes, may_stop, hashed; not: The words of a document that is collected or added, and its later refusals, a query after the setup, and a renewal whose key is new: there
//     memory may run out instead.
/// Takes a line of a script after its key line, or tells why it is refused, and then the reading stands as before. Its tables hash
/// under these keys. A line without fields and a key line change nothing.
///
/// Error: out of memory, which never comes in place of a refusal that is found without memory (`MayStop`); all is lost then.
pub fn take_line<K: Keyed>(
    alloc: Global,
    keyed: &K,
    keys: HashKeys,
    standing: Standing,
    line: Line<'_>,
) -> Result<(Standing, Option<Refusal>), AllocError>
    requires words { words_in (line_view line) ≤ 2 ^ 19 }
    ensures takes { IfOk result (λ done. (request : Request) → line_read (line_view line.entry) ≡ requests.Command request → CarriesOut (keyed_fn K.prf K.pad) standing request done.0 done.1) }
    ensures may_stop { OnErr result (MayStop (keyed_fn K.prf K.pad) standing (line_view line.entry)) }
    ensures hashed { keys_at standing.stage ≡ hash_numbers keys → IfOk result (λ done. keys_at done.0.stage ≡ hash_numbers keys) }
{
    match line {
        Line::Rebuild(key) => rebuild(keyed, standing, key),
        line => {
            let Standing { stage, used } = standing;
            let (stage, found) = take_plain(alloc, keys, stage, line)?;
            Ok((Standing { stage, used }, found))
        }
    }
}

/// Takes the new key of a `rebuild` line.
fn rebuild<K: Keyed>(
    keyed: &K,
    standing: Standing,
    key: [u8; 32],
) -> Result<(Standing, Option<Refusal>), AllocError>
    ensures takes { IfOk result (λ done. CarriesOut (keyed_fn K.prf K.pad) standing (requests.RebuildLine key) done.0 done.1) }
    ensures may_stop { OnErr result (RenewalMayStop (keyed_fn K.prf K.pad) standing.stage standing.used key) }
    ensures hashed { IfOk result (λ done. keys_at done.0.stage ≡ keys_at standing.stage) }
{
    let Standing { stage, mut used } = standing;
    match stage {
        Stage::Collecting(docs) => {
            let stage = Stage::Collecting(docs);
            Ok((Standing { stage, used }, Some(Refusal::NotSetUp)))
        }
        Stage::Built(history) => {
            let mut history = history;
            let found = renew(keyed, &mut history, &mut used, key)?;
            let stage = Stage::Built(history);
            Ok((Standing { stage, used }, found))
        }
    }
}

/// Renews the key, or tells why not.
fn renew<K: Keyed>(
    keyed: &K,
    history: &mut NumberedHistory,
    used: &mut UsedKeys,
    key: [u8; 32],
) -> Result<Option<Refusal>, AllocError>
    ensures found { IfOk result (λ found. found ≡ option_or (known_refusal (marks_known used.old) (mark_of (keyed_fn K.prf K.pad) key)) (renew_refusal (epochs_in history.old) key)) }
    ensures after { IfOk result (λ found. epochs_in history.new ≡ epochs_renewed found (epochs_in history.old) key) }
    ensures known { IfOk result (λ found. marks_known used.new ≡ known_after found (mark_of (keyed_fn K.prf K.pad) key) (marks_known used.old)) }
    ensures may_stop { OnErr result (known_refusal (marks_known used.old) (mark_of (keyed_fn K.prf K.pad) key) ≡ None) }
    ensures keys { history.new.last.keys ≡ history.old.last.keys }
{
    match used {
        UsedKeys::Marked(marks) => renew_unused(keyed, history, marks, key),
        UsedKeys::Unmarked => history.renew(key),
    }
}

/// The same where the key has to be another than those of these marks.
fn renew_unused<K: Keyed>(
    keyed: &K,
    history: &mut NumberedHistory,
    marks: &mut Vec<[u8; 16]>,
    key: [u8; 32],
) -> Result<Option<Refusal>, AllocError>
    ensures found { IfOk result (λ found. found ≡ option_or (known_refusal (Some marks.old.items) (mark_of (keyed_fn K.prf K.pad) key)) (renew_refusal (epochs_in history.old) key)) }
    ensures after { IfOk result (λ found. epochs_in history.new ≡ epochs_renewed found (epochs_in history.old) key) }
    ensures known { IfOk result (λ found. Some marks.new.items ≡ known_after found (mark_of (keyed_fn K.prf K.pad) key) (Some marks.old.items)) }
    ensures may_stop { OnErr result (known_refusal (Some marks.old.items) (mark_of (keyed_fn K.prf K.pad) key) ≡ None) }
    ensures keys { history.new.last.keys ≡ history.old.last.keys }
{
    let mark = MasterKey::new(key).prepare(keyed).mark();
    match epoch_of(marks.as_slice(), &mark) {
        Some(epoch) => Ok(Some(Refusal::KeyUsed {
            epoch: epoch as u64,
        })),
        None => renew_marked(history, marks, mark, key),
    }
}

/// Renews the key, which has this mark, or tells why not.
fn renew_marked(
    history: &mut NumberedHistory,
    marks: &mut Vec<[u8; 16]>,
    mark: [u8; 16],
    key: [u8; 32],
) -> Result<Option<Refusal>, AllocError>
    ensures found { IfOk result (λ found. found ≡ renew_refusal (epochs_in history.old) key) }
    ensures after { IfOk result (λ found. epochs_in history.new ≡ epochs_renewed found (epochs_in history.old) key) }
    ensures known { IfOk result (λ found. Some marks.new.items ≡ known_after found mark (Some marks.old.items)) }
    ensures keys { history.new.last.keys ≡ history.old.last.keys }
{
    let found = history.renew(key)?;
    if found.is_none() {
        marks.push(mark)?;
    }
    Ok(found)
}

/// Takes a line that isn't a `rebuild` line.
fn take_plain(
    alloc: Global,
    keys: HashKeys,
    stage: Stage,
    line: Line<'_>,
) -> Result<(Stage, Option<Refusal>), AllocError>
    requires words { words_in (line_view line) ≤ 2 ^ 19 }
    requires keeps { KeepsKey (line_view line) }
    ensures takes { IfOk result (λ done. (request : Request) → line_read (line_view line.entry) ≡ requests.Command request → Takes stage request done.0 done.1) }
    ensures may_stop { OnErr result (MayStopHere stage (line_view line.entry)) }
    ensures hashed { keys_at stage ≡ hash_numbers keys → IfOk result (λ done. keys_at done.0 ≡ hash_numbers keys) }
{
    match stage {
        Stage::Collecting(docs) => before_setup(alloc, keys, docs, line),
        Stage::Built(history) => after_setup(alloc, history, line),
    }
}

/// The same before a setup was accepted.
fn before_setup(
    alloc: Global,
    keys: HashKeys,
    mut docs: Docs,
    line: Line<'_>,
) -> Result<(Stage, Option<Refusal>), AllocError>
    requires words { words_in (line_view line) ≤ 2 ^ 19 }
    requires keeps { KeepsKey (line_view line) }
    ensures takes { IfOk result (λ done. (request : Request) → line_read (line_view line.entry) ≡ requests.Command request → Takes (Stage.Collecting docs) request done.0 done.1) }
    ensures may_stop { OnErr result (MayStopHere (Stage.Collecting docs) (line_view line.entry)) }
    ensures hashed { docs.keys ≡ hash_numbers keys → IfOk result (λ done. keys_at done.0 ≡ hash_numbers keys) }
{
    match line {
        Line::Empty | Line::Key(_) | Line::Rebuild(_) => Ok((Stage::Collecting(docs), None)),
        Line::Doc { id, words } => {
            let found = collect(alloc, &mut docs, id, words)?;
            Ok((Stage::Collecting(docs), found))
        }
        Line::Setup { b, big, pad } => set_up(alloc, keys, docs, Sizes { b, big, pad }),
        Line::Add { .. } | Line::Del { .. } | Line::Find { .. } | Line::Query(_) => {
            Ok((Stage::Collecting(docs), Some(Refusal::NotSetUp)))
        }
    }
}

/// The same after it.
fn after_setup(
    alloc: Global,
    mut history: NumberedHistory,
    line: Line<'_>,
) -> Result<(Stage, Option<Refusal>), AllocError>
    requires words { words_in (line_view line) ≤ 2 ^ 19 }
    requires keeps { KeepsKey (line_view line) }
    ensures takes { IfOk result (λ done. (request : Request) → line_read (line_view line.entry) ≡ requests.Command request → Takes (Stage.Built history) request done.0 done.1) }
    ensures may_stop { OnErr result (MayStopHere (Stage.Built history) (line_view line.entry)) }
    ensures hashed { IfOk result (λ done. keys_at done.0 ≡ history.last.keys) }
{
    let found = command_of_line(alloc, &mut history, line)?;
    Ok((Stage::Built(history), found))
}

/// Takes a line after the setup.
fn command_of_line(
    alloc: Global,
    history: &mut NumberedHistory,
    line: Line<'_>,
) -> Result<Option<Refusal>, AllocError>
    requires words { words_in (line_view line) ≤ 2 ^ 19 }
    requires keeps { KeepsKey (line_view line) }
    ensures takes { IfOk result (λ found. (request : Request) → line_read (line_view line.entry) ≡ requests.Command request → TakesAfter (epochs_in history.old) request (epochs_in history.new) found) }
    ensures may_stop { OnErr result (MayStopHere (Stage.Built history.old) (line_view line.entry)) }
    ensures keys { history.new.last.keys ≡ history.old.last.keys }
{
    match line {
        Line::Empty | Line::Key(_) | Line::Rebuild(_) => Ok(None),
        Line::Doc { .. } | Line::Setup { .. } => Ok(Some(Refusal::SetUpAlready)),
        Line::Add { id, words } => add(alloc, history, id, words),
        Line::Del { id } => delete(history, id),
        Line::Find { word } => find(history, word),
        Line::Query(fields) => query(alloc, history, fields),
    }
}

/// Collects the document of a `doc` line, or tells why it is refused.
fn collect(
    alloc: Global,
    docs: &mut Docs,
    id: u64,
    fields: Fields<'_>,
) -> Result<Option<Refusal>, AllocError>
    requires { length fields ≤ 2 ^ 19 }
    ensures found { IfOk result (λ found. found ≡ collect_refusal docs.old.documents (document id fields.entry)) }
    ensures after { IfOk result (λ found. docs.new.documents ≡ collected_after found docs.old.documents (document id fields.entry)) }
    ensures may_stop { OnErr result (id ≢ 0) }
    ensures keys { docs.new.keys ≡ docs.old.keys }
{
    match add_document(alloc, docs, id, fields) {
        Ok(()) => Ok(None),
        Err(fault) => refusal_of(fault),
    }
}

/// Begins the history of the documents, or tells why there is no index of them with these sizes.
fn set_up(
    alloc: Global,
    keys: HashKeys,
    docs: Docs,
    sizes: Sizes,
) -> Result<(Stage, Option<Refusal>), AllocError>
    ensures found { IfOk result (λ done. done.1 ≡ index_refusal docs.documents sizes.b sizes.big sizes.pad) }
    ensures after { IfOk result (λ done. IsSetUp done.1 docs.documents (setup_with docs.documents sizes.b sizes.big sizes.pad) done.0) }
    ensures may_stop { OnErr result (size_refusal (setup_with docs.documents sizes.b sizes.big sizes.pad) ≡ None) }
    ensures hashed { docs.keys ≡ hash_numbers keys → IfOk result (λ done. keys_at done.0 ≡ hash_numbers keys) }
{
    match size_of(&docs, sizes) {
        Ok(size) => {
            let history = NumberedHistory::begin(alloc, docs, keys, &size)?;
            Ok((Stage::Built(history), None))
        }
        Err(fault) => Ok((Stage::Collecting(docs), Some(refusal_of_size(fault)))),
    }
}

/// Takes the addition of an `add` line.
fn add(
    alloc: Global,
    history: &mut NumberedHistory,
    id: u64,
    fields: Fields<'_>,
) -> Result<Option<Refusal>, AllocError>
    requires { length fields ≤ 2 ^ 19 }
    ensures found { IfOk result (λ found. found ≡ read_add_refusal (epochs_in history.old) (document id fields.entry)) }
    ensures after { IfOk result (λ found. epochs_in history.new ≡ epochs_after found (epochs_in history.old) (Add (document id fields.entry))) }
    ensures may_stop { OnErr result (id ≢ 0) }
    ensures keys { history.new.last.keys ≡ history.old.last.keys }
{
    match document_of(alloc, id, fields) {
        Ok(doc) => history.push(Command::Add(doc)),
        Err(fault) => refusal_of(fault),
    }
}

/// Takes the deletion of a `del` line.
fn delete(history: &mut NumberedHistory, id: u64) -> Result<Option<Refusal>, AllocError>
    ensures found { IfOk result (λ found. found ≡ read_delete_refusal (epochs_in history.old) id) }
    ensures after { IfOk result (λ found. epochs_in history.new ≡ epochs_after found (epochs_in history.old) (Delete id)) }
    ensures may_stop { OnErr result (delete_refusal (Some (epochs_in history.old)) id ≡ None) }
    ensures keys { history.new.last.keys ≡ history.old.last.keys }
{
    match DocId::new(id) {
        Ok(id) => history.push(Command::Delete(id)),
        Err(_) => Ok(Some(Refusal::Zero)),
    }
}

/// Takes the search of a `find` line.
fn find(history: &mut NumberedHistory, field: &[u8]) -> Result<Option<Refusal>, AllocError>
    ensures found { IfOk result (λ found. found ≡ read_find_refusal (epochs_in history.old) field.now) }
    ensures after { IfOk result (λ found. epochs_in history.new ≡ epochs_after found (epochs_in history.old) (Search field.now)) }
    ensures may_stop { OnErr result (bad_word 0 (field.now ∷ []) ≡ None) }
    ensures keys { history.new.last.keys ≡ history.old.last.keys }
{
    match word_of(field, 0) {
        Ok(word) => history.push(Command::Search(word)),
        Err(fault) => refusal_of(fault),
    }
}

/// Takes the searches of a `query` line, one for each of its different words.
fn query(
    alloc: Global,
    history: &mut NumberedHistory,
    fields: Fields<'_>,
) -> Result<Option<Refusal>, AllocError>
    ensures found { IfOk result (λ found. found ≡ read_query_refusal (epochs_in history.old) fields.entry) }
    ensures after { IfOk result (λ found. epochs_in history.new ≡ epochs_after_all found (epochs_in history.old) (map (λ word. Search word) (words_of fields.entry))) }
    ensures keys { history.new.last.keys ≡ history.old.last.keys }
{
    match Query::read(alloc, fields) {
        Ok(query) => history.push_searches(query.words()),
        Err(fault) => refusal_of(LineFault::from(fault)),
    }
}

/// The refusal that a fault of a line says.
fn refusal_of(fault: LineFault) -> Result<Option<Refusal>, AllocError>
    ensures says { (first : Option Reason) → SaysRefusal fault first → IfOk result (λ found. found ≡ first) }
    ensures some { IfOk result IsSome }
    ensures memory { OnErr result (fault ≡ LineFault.NoMemory) }
{
    match fault {
        LineFault::Refused(refusal) => Ok(Some(refusal)),
        LineFault::NoMemory => Err(AllocError),
    }
}

/// The fault of a setup's size as a refusal.
fn refusal_of_size(fault: SizeFault) -> Refusal
    ensures { result ≡ size_refused fault }
{
    match fault {
        SizeFault::BadParameter { which, value } => Refusal::BadParameter { which, value },
        SizeFault::ListTooLong { word, n } => Refusal::ListTooLong { word, n },
        SizeFault::TooManyBytes(n) => Refusal::TooManyBytes { n },
    }
}
