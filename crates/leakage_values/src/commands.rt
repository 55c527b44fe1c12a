ghost use Rattle.std.specs.Prelude.{◌≡◌, ◌<◌, ◌^◌, ◌++◌, [], All, IfOk, List, OnOk, flat_map, length, map, unwrap_or};
ghost use Rattle.client_registry.specs.Command.{Command as Meant};
ghost use Rattle.client_registry.specs.IdNumber.{id_number};
ghost use Rattle.client_registry.specs.Numbered.{words_by_number};
ghost use Rattle.client_registry.specs.Registered.{facts, known_words};
ghost use Rattle.client_registry.specs.Setup.{Setup};
ghost use Rattle.client_registry.specs.WordBytes.{word_bytes};
ghost use Rattle.leakage_history.specs.Commands.{command_of};
ghost use Rattle.leakage_values.specs.CommandDrawings.{addition_by_number, addition_piece, deletion_piece, number_by_number, search_piece, token_by_number};
ghost use Rattle.leakage_values.specs.Numbered.{numbered_drawing};
ghost use Rattle.leakage_values.specs.Replayed.{Follows, HasApart};
ghost use Rattle.def_leakage.specs.DrawnValues.{drawings_by};

use crate::drawn::Drawing;
use crate::numbered_names::{name, number_of};
use crate::replay::{Pairs, Replay, is_pair, is_searched};
use client_registry::{DocId, HashKeys, Registry, Word};
use indexmap::IndexSet;
use leakage_history::{Command, RunWords};
use leakage_names::NameKind;
use sse_frames::Items;
use std::alloc::{AllocError, Global};

/// The new entry of an addition of the word of this number, with its counter.
fn addition(epoch: u32, word: u32, counter: u32) -> Drawing
    ensures { result ≡ addition_by_number epoch word counter }
{
    Drawing::Entry(
        name(epoch, word, NameKind::PlusLabel, u64::from(counter)),
        name(epoch, word, NameKind::PlusPad, u64::from(counter)),
    )
}

/// The revocation number of the word of this number and an identifier.
fn revocation(epoch: u32, word: u32, id: DocId) -> Drawing
    ensures { result ≡ number_by_number epoch word (id_number id) }
{
    Drawing::Number(name(epoch, word, NameKind::Revocation, id.get()))
}

/// The token of the word of this number.
fn token(epoch: u32, word: u32) -> Drawing
    ensures { result ≡ token_by_number epoch word }
{
    Drawing::Token(name(epoch, word, NameKind::Token, 0))
}

/// Appends the new entry of a word where its pair with the identifier isn't listed.
fn push_if_fresh(
    drawings: &mut Items<Drawing>,
    words: &RunWords,
    registry: &Registry,
    word: &Word,
    id: DocId,
    epoch: u32,
) -> Result<(), AllocError>
    requires { length words.now < 2 ^ 32 }
    ensures { OnOk result (drawings.new ≡ drawings.old ++ addition_piece epoch words.now (facts registry.now) (id_number id) (word_bytes word.now)) }
{
    if !registry.is_listed(word, id) {
        drawings.push(addition(epoch, number_of(words, word), registry.counter(word)))?;
    }
    Ok(())
}

/// Appends the new entries of an addition of this identifier and these words.
fn push_addition(
    drawings: &mut Items<Drawing>,
    words: &RunWords,
    registry: &Registry,
    of: &[Word],
    id: DocId,
    epoch: u32,
) -> Result<(), AllocError>
    requires { length words.now < 2 ^ 32 }
    ensures { OnOk result (drawings.new ≡ drawings.old ++ flat_map (addition_piece epoch words.now (facts registry.now) (id_number id)) (map word_bytes of.now)) }
{
    for word in of {
        push_if_fresh(drawings, words, registry, word, id, epoch)?;
    }
    Ok(())
}

/// Appends the revocation number of a word and an identifier where it wasn't sent.
fn push_if_unsent(
    drawings: &mut Items<Drawing>,
    words: &RunWords,
    sent: &Pairs,
    word: &Word,
    id: DocId,
    epoch: u32,
) -> Result<(), AllocError>
    requires { length words.now < 2 ^ 32 }
    ensures { OnOk result (drawings.new ≡ drawings.old ++ deletion_piece epoch words.now sent.now.keys (id_number id) (word_bytes word.now)) }
{
    if !is_pair(sent, word, id) {
        drawings.push(revocation(epoch, number_of(words, word), id))?;
    }
    Ok(())
}

/// Appends the numbers that a deletion of this identifier draws, whose document has the words of these numbers.
fn push_deletion(
    drawings: &mut Items<Drawing>,
    words: &RunWords,
    sent: &Pairs,
    registry: &Registry,
    numbers: &[u32],
    id: DocId,
    epoch: u32,
) -> Result<(), AllocError>
    requires few { length words.now < 2 ^ 32 }
    requires within { All (λ n. n < length (known_words registry.now)) numbers.now }
    ensures { OnOk result (drawings.new ≡ drawings.old ++ flat_map (deletion_piece epoch words.now sent.now.keys (id_number id)) (words_by_number (known_words registry.now) numbers.now)) }
{
    for number in numbers {
        push_if_unsent(
            drawings,
            words,
            sent,
            registry.word(*number as usize),
            id,
            epoch,
        )?;
    }
    Ok(())
}

/// The same of the live document of this identifier, and nothing where there is none.
fn push_live(
    drawings: &mut Items<Drawing>,
    words: &RunWords,
    sent: &Pairs,
    registry: &Registry,
    id: DocId,
    epoch: u32,
) -> Result<(), AllocError>
    requires { length words.now < 2 ^ 32 }
    ensures { OnOk result (drawings.new ≡ drawings.old ++ flat_map (deletion_piece epoch words.now sent.now.keys (id_number id)) (unwrap_or ((facts registry.now).live (id_number id)) [])) }
{
    match registry.get(id) {
        Some(doc) => push_deletion(drawings, words, sent, registry, doc.numbers, id, epoch),
        None => Ok(()),
    }
}

/// Appends the token of a word that wasn't searched.
fn push_search(
    drawings: &mut Items<Drawing>,
    words: &RunWords,
    searched: &IndexSet<Word, HashKeys>,
    word: &Word,
    epoch: u32,
) -> Result<(), AllocError>
    requires { length words.now < 2 ^ 32 }
    ensures { OnOk result (drawings.new ≡ drawings.old ++ search_piece epoch words.now searched.now.keys (word_bytes word.now)) }
{
    if !is_searched(searched, word) {
        drawings.push(token(epoch, number_of(words, word)))?;
    }
    Ok(())
}

/// Appends what the values of a command are drawn for.
fn push_command(
    drawings: &mut Items<Drawing>,
    words: &RunWords,
    replay: &Replay,
    command: &Command,
    epoch: u32,
) -> Result<(), AllocError>
    requires { length words.now < 2 ^ 32 }
    ensures { OnOk result ((s : Setup) (past : List Meant) → Follows replay.now s past → HasApart s past → drawings.new ≡ drawings.old ++ map (numbered_drawing words.now) (drawings_by epoch s past (command_of command.now))) }
{
    let registry = &replay.registry;
    match command {
        Command::Add(doc) => push_addition(drawings, words, registry, doc.words(), doc.id(), epoch),
        Command::Delete(id) => push_live(drawings, words, &replay.sent, registry, *id, epoch),
        Command::Search(word) => push_search(drawings, words, &replay.searched, word, epoch),
    }
}

/// What the values of a command are drawn for.
pub(crate) fn command_drawings(
    alloc: Global,
    replay: &Replay,
    words: &RunWords,
    command: &Command,
    epoch: u32,
) -> Result<Items<Drawing>, AllocError>
    requires { length words.now < 2 ^ 32 }
    ensures { IfOk result (λ drawings. (s : Setup) (past : List Meant) → Follows replay.now s past → HasApart s past → drawings ≡ map (numbered_drawing words.now) (drawings_by epoch s past (command_of command.now))) }
{
    let mut drawings = Items::new(alloc);
    push_command(&mut drawings, words, replay, command, epoch)?;
    Ok(drawings)
}
