ghost use Rattle.std.specs.Prelude.{◌≡◌, ◌+◌, ◌<◌, ◌≤◌, ◌^◌, ℕ, [], IfOk, List, OnOk, Some, length, slice_get};
ghost use Rattle.indexmap.specs.IndexMap.{hasher_of};
ghost use Rattle.two_level.specs.Plan as layout;
ghost use Rattle.client_registry.specs.Acceptance.{blocks_of};
ghost use Rattle.client_registry.specs.Document.{Document};
ghost use Rattle.client_registry.specs.Documents.{IsCollected};
ghost use Rattle.client_registry.specs.IdNumber.{id_number};
ghost use Rattle.client_registry.specs.Run.{Offsets};
ghost use Rattle.client_registry.specs.Setup.{setup_of};
ghost use Rattle.client_registry.specs.WordBytes.{word_bytes};
ghost use Rattle.leakage_model.specs.TrailFacts.{ChangesAt, ChangesEach, IsPlaced, Tells, facts_in};
ghost use Rattle.leakage_model.specs.Pairs.{home_view};
ghost use Rattle.leakage_model.specs.WordFacts.{placed_at, set_up_with};

use crate::pair::HomeAt;
use crate::trail_table::{Table, place_in};
use client_registry::{DocId, Docs, Word};
use std::alloc::AllocError;
use two_level::Shape;

/// The setup holds the word there.
fn place_word(words: &mut Table, word: &Word, home: HomeAt) -> Result<(), AllocError>
    ensures placed { OnOk result (ChangesAt words.old.entries words.new.entries (word_bytes word.now) (placed_at (home_view home))) }
    ensures hasher { OnOk result (hasher_of words.new ≡ hasher_of words.old) }
{
    let place = place_in(words, word)?;
    let trail = &mut words[place];
    trail.place(home);
    Ok(())
}

/// How many blocks a list of n identifiers takes.
fn blocks_of_list(n: u32, shape: Shape) -> u64
    requires { 1 ≤ n }
    ensures count { result ≡ layout.block_count (layout.plan shape n) }
{
    match shape.plan(u64::from(n)) {
        Ok(plan) => u64::from(plan.pointer_blocks) + u64::from(plan.data_blocks),
        Err(_) => 0,
    }
}

/// The setup of these documents holds each of their words.
pub(crate) fn place_words(words: &mut Table, docs: &Docs, shape: Shape) -> Result<(), AllocError>
    requires empty { words.old.entries ≡ [] }
    requires fits { blocks_of (setup_of docs.now.documents shape.b shape.big) < 2 ^ 32 }
    ensures placed { OnOk result (IsPlaced words.new.entries docs.now.documents shape) }
    ensures hasher { OnOk result (hasher_of words.new ≡ hasher_of words.old) }
    ensures collected { IsCollected docs.now.documents }
{
    let mut first: u32 = 0;
    for number in 0..docs.words() {
        let end = first + blocks_of_list(docs.list_len(number), shape) as u32;
        let home = HomeAt {
            entry: number as u32,
            first,
            end,
        };
        place_word(words, docs.word(number), home)?;
        first = end;
    }
    Ok(())
}

/// A document of the setup with this identifier holds the word. The setup is the command of this number.
fn set_up_word(words: &mut Table, word: &Word, id: DocId, command: u32) -> Result<(), AllocError>
    requires { length (facts_in words.old.entries (word_bytes word.now)).listed < 2 ^ 32 }
    ensures held { OnOk result (ChangesAt words.old.entries words.new.entries (word_bytes word.now) (set_up_with command (id_number id))) }
    ensures hasher { OnOk result (hasher_of words.new ≡ hasher_of words.old) }
{
    let place = place_in(words, word)?;
    let trail = &mut words[place];
    trail.set_up(id, command)
}

/// The setup holds the document at this place. The setup is the command of this number.
fn set_up_document(words: &mut Table, docs: &Docs, i: usize, command: u32) -> Result<(), AllocError>
    requires within { i < length docs.now.documents }
    requires few { (w : List ℕ) → length (facts_in words.old.entries w).listed < 2 ^ 32 }
    ensures held { (d : Document) → slice_get docs.now.documents i ≡ Some d → OnOk result (ChangesEach words.old.entries words.new.entries d.words (λ _. set_up_with command d.id)) }
    ensures hasher { OnOk result (hasher_of words.new ≡ hasher_of words.old) }
{
    let doc = docs.get(i);
    for number in doc.numbers {
        set_up_word(words, docs.word(*number as usize), doc.id, command)?;
    }
    Ok(())
}

/// The setup holds these documents, whose words have their places. The setup is the command of this number.
pub(crate) fn set_up_documents(
    words: &mut Table,
    docs: &Docs,
    shape: Shape,
    command: u32,
) -> Result<(), AllocError>
    requires { IsPlaced words.old.entries docs.now.documents shape }
    ensures told { OnOk result ((o : Offsets) → o.command ≡ command → Tells words.new.entries o (setup_of docs.now.documents shape.b shape.big) []) }
    ensures hasher { OnOk result (hasher_of words.new ≡ hasher_of words.old) }
{
    for i in 0..docs.len() {
        set_up_document(words, docs, i, command)?;
    }
    Ok(())
}
