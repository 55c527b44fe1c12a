ghost use Rattle.std.specs.Prelude.{◌≡◌, ◌≢◌, ◌≤◌, ◌^◌, ℕ, None, Some, Err, IfOk, IfErr, OnOk, OnErr, option_map};
ghost use Rattle.script_documents.specs.LineFaults.{SaysRefusal};
ghost use Rattle.script_run_texts.specs.LineWords.{words_in};
ghost use Rattle.sse_script.specs.Views.{line_view};
ghost use Rattle.script_events.specs.Events.{IsBadLine, IsEventOf, docs_after, event_in, event_view, few_words, refusal_in};
ghost use Rattle.script_world.specs.WorldLines.{ScriptLine};
ghost use Rattle.script_world.specs.WorldLineViews.{world_line_view};

use crate::event::WorldEvent;
use client_registry::{DocId, Docs, Sizes};
use script_documents::{LineFault, add_document, document_of, word_of};
use script_run_texts::InputStop;
use script_world::{WorldLine, read_world_line};
use sse_script::Line;
use std::alloc::Global;

// Promise P328, also here; clauses: event, bad, source, kept, keys
/// Reads the line of this number, without its end (byte 0a), as an event; nothing of a line without fields, and of a document,
/// which is collected after the others.
///
/// Errors, after which the documents are as before: `Line(number)` if the line isn't in the grammar of worlds, or its identifier, its
/// document or its word can't be; `Memory` if memory runs out.
pub fn read_event(
    alloc: Global,
    bytes: &[u8],
    number: u64,
    docs: &mut Docs,
) -> Result<Option<WorldEvent>, InputStop>
    ensures event { IfOk result (λ event. IsEventOf bytes.now docs.old.documents docs.new.documents (option_map event_view event)) }
    ensures bad { (n : ℕ) → result ≡ Err (InputStop.Line n) → (n ≡ number) × IsBadLine bytes.now docs.old.documents }
    ensures source { result ≢ Err InputStop.Source }
    ensures kept { OnErr result (docs.new ≡ docs.old) }
    ensures keys { docs.new.keys ≡ docs.old.keys }
{
    match read_world_line(bytes, number) {
        Ok(line) => match event_of(alloc, line, docs) {
            Ok(event) => Ok(event),
            Err(fault) => match fault {
                LineFault::Refused(_) => Err(InputStop::Line(number)),
                LineFault::NoMemory => Err(InputStop::Memory),
            },
        },
        Err(_) => Err(InputStop::Line(number)),
    }
}

/// The event of a line.
fn event_of(
    alloc: Global,
    line: WorldLine<'_>,
    docs: &mut Docs,
) -> Result<Option<WorldEvent>, LineFault>
    requires words { few_words (world_line_view line) }
    ensures event { IfOk result (λ event. option_map event_view event ≡ event_in (world_line_view line.entry)) }
    ensures docs { OnOk result (docs.new.documents ≡ docs_after docs.old.documents (world_line_view line.entry)) }
    ensures good { OnOk result (refusal_in docs.old.documents (world_line_view line.entry) ≡ None) }
    ensures refused { IfErr result (λ fault. SaysRefusal fault (refusal_in docs.old.documents (world_line_view line.entry))) }
    ensures kept { OnErr result (docs.new ≡ docs.old) }
    ensures keys { docs.new.keys ≡ docs.old.keys }
{
    match line {
        WorldLine::Script(line) => script_event(alloc, line, docs),
        WorldLine::World => Ok(Some(WorldEvent::World)),
        WorldLine::Send => Ok(Some(WorldEvent::Send)),
        WorldLine::Deliver { place } => Ok(Some(WorldEvent::Deliver { place })),
        WorldLine::Lose => Ok(Some(WorldEvent::Lose)),
        WorldLine::Stop { side, call, pick } => Ok(Some(WorldEvent::Stop { side, call, pick })),
        WorldLine::Start { side } => Ok(Some(WorldEvent::Start { side })),
    }
}

/// The event of a line of a script.
fn script_event(
    alloc: Global,
    line: Line<'_>,
    docs: &mut Docs,
) -> Result<Option<WorldEvent>, LineFault>
    requires words { words_in (line_view line) ≤ 2 ^ 19 }
    ensures event { IfOk result (λ event. option_map event_view event ≡ event_in (ScriptLine (line_view line.entry))) }
    ensures docs { OnOk result (docs.new.documents ≡ docs_after docs.old.documents (ScriptLine (line_view line.entry))) }
    ensures good { OnOk result (refusal_in docs.old.documents (ScriptLine (line_view line.entry)) ≡ None) }
    ensures refused { IfErr result (λ fault. SaysRefusal fault (refusal_in docs.old.documents (ScriptLine (line_view line.entry)))) }
    ensures kept { OnErr result (docs.new ≡ docs.old) }
    ensures keys { docs.new.keys ≡ docs.old.keys }
{
    match line {
        Line::Empty => Ok(None),
        Line::Key(key) => Ok(Some(WorldEvent::Key(key))),
        Line::Doc { id, words } => match add_document(alloc, docs, id, words) {
            Ok(()) => Ok(None),
            Err(fault) => Err(fault),
        },
        Line::Setup { b, big, pad } => Ok(Some(WorldEvent::SetUp(Sizes { b, big, pad }))),
        Line::Add { id, words } => match document_of(alloc, id, words) {
            Ok(doc) => Ok(Some(WorldEvent::Add(doc))),
            Err(fault) => Err(fault),
        },
        Line::Del { id } => match DocId::new(id) {
            Ok(id) => Ok(Some(WorldEvent::Delete(id))),
            Err(zero) => Err(LineFault::from(zero)),
        },
        Line::Find { word } => match word_of(word, 0) {
            Ok(word) => Ok(Some(WorldEvent::Find(word))),
            Err(fault) => Err(fault),
        },
        // No line of a world is one.
        Line::Query(_) => Ok(None),
        Line::Rebuild(key) => Ok(Some(WorldEvent::Renew(key))),
    }
}
