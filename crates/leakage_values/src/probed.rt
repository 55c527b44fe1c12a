ghost use Rattle.std.specs.Prelude.{◌≡◌, ◌<◌, ◌^◌, ◌++◌, ◌∷◌, [], IfOk, List, OnOk, length, map, true};
ghost use Rattle.std.specs.List.{range_with_len};
ghost use Rattle.client_registry.specs.Command.{Command as Meant};
ghost use Rattle.client_registry.specs.IdNumber.{id_number};
ghost use Rattle.client_registry.specs.Registered.{facts};
ghost use Rattle.client_registry.specs.Run.{Offsets};
ghost use Rattle.client_registry.specs.Setup.{Setup};
ghost use Rattle.client_registry.specs.Sized.{run_words};
ghost use Rattle.client_registry.specs.WordBytes.{word_bytes};
ghost use Rattle.leakage_history.specs.Commands.{command_of};
ghost use Rattle.leakage_history.specs.Refusal.{is_accepted_by};
ghost use Rattle.leakage_history.specs.HashedRun.{run_of};
ghost use Rattle.leakage_values.specs.Listed.{IsListing, ids_in};
ghost use Rattle.leakage_values.specs.Numbered.{number_of_word, numbered};
ghost use Rattle.leakage_values.specs.ProbedNames.{probed_by_number};
ghost use Rattle.leakage_values.specs.SetupDrawings.{code_name};
ghost use Rattle.leakage_names.specs.declared.name.NameKind.TheVariants as kinds;
ghost use Rattle.sse_model.specs.Drawn.{probed, probed_by};

use crate::listed::Listing;
use crate::numbered_names::{name, number_of};
use client_registry::{DocId, Word};
use leakage_history::{Command, History, RunWords};
use leakage_names::{Name, NameKind};
use sse_frames::Items;
use std::alloc::{AllocError, Global};

/// Appends the labels of so many additions of the word of this number.
fn push_labels(names: &mut Items<Name>, word: u32, count: u64, epoch: u32) -> Result<(), AllocError>
    ensures { OnOk result (names.new ≡ names.old ++ map (code_name epoch word kinds.PlusLabel) (range_with_len 0 count)) }
{
    for counter in 0..count {
        names.push(name(epoch, word, NameKind::PlusLabel, counter))?;
    }
    Ok(())
}

/// Appends the revocation numbers of the word of this number and these identifiers.
fn push_revocations(
    names: &mut Items<Name>,
    word: u32,
    ids: &[DocId],
    epoch: u32,
) -> Result<(), AllocError>
    ensures { OnOk result (names.new ≡ names.old ++ map (code_name epoch word kinds.Revocation) (map id_number ids.now)) }
{
    for id in ids {
        names.push(name(epoch, word, NameKind::Revocation, id.get()))?;
    }
    Ok(())
}

/// The names that a server looks up for a search of a word.
fn search_names(
    alloc: Global,
    listing: &Listing,
    words: &RunWords,
    word: &Word,
    epoch: u32,
) -> Result<Items<Name>, AllocError>
    requires { length words.now < 2 ^ 32 }
    ensures { IfOk result (λ names. names ≡ probed_by_number epoch (number_of_word words.now (word_bytes word.now)) ((facts listing.now.registry).counter (word_bytes word.now)) (ids_in listing.now.table.entries word.now)) }
{
    let number = number_of(words, word);
    let count = u64::from(listing.registry.counter(word)) + 1;
    let mut names = Items::new(alloc);
    names.push(name(epoch, number, NameKind::ListLabel, 0))?;
    push_labels(&mut names, number, count, epoch)?;
    push_revocations(&mut names, number, listing.ids(word), epoch)?;
    Ok(names)
}

/// The names that a server looks up for a command.
fn command_names(
    alloc: Global,
    listing: &Listing,
    words: &RunWords,
    command: &Command,
    epoch: u32,
) -> Result<Items<Name>, AllocError>
    requires { length words.now < 2 ^ 32 }
    ensures { IfOk result (λ names. (s : Setup) (past : List Meant) → IsListing listing.now s past → names ≡ map (numbered words.now) (probed_by epoch s past (command_of command.now))) }
{
    match command {
        Command::Add(_) => Ok(Items::new(alloc)),
        Command::Delete(_) => Ok(Items::new(alloc)),
        Command::Search(word) => search_names(alloc, listing, words, word, epoch),
    }
}

/// Appends the names that a server looks up for a command, and takes the command.
fn take_turn(
    alloc: Global,
    all: &mut Items<Items<Name>>,
    listing: &mut Listing,
    words: &RunWords,
    command: &Command,
    epoch: u32,
) -> Result<(), AllocError>
    requires accepted { is_accepted_by (facts listing.old.registry) (command_of command.now) ≡ true }
    requires few { length words.now < 2 ^ 32 }
    ensures probed { OnOk result ((s : Setup) (past : List Meant) → IsListing listing.old s past → all.new ≡ all.old ++ map (numbered words.now) (probed_by epoch s past (command_of command.now)) ∷ []) }
    ensures follows { OnOk result ((s : Setup) (past : List Meant) → IsListing listing.old s past → IsListing listing.new s (past ++ command_of command.now ∷ [])) }
{
    all.push(command_names(alloc, listing, words, command, epoch)?)?;
    listing.take(command)
}

/// The names that a server looks up for each command, where these are the words of the history by number.
fn probed_by_words(
    alloc: Global,
    history: &History,
    words: &RunWords,
    epoch: u32,
) -> Result<Items<Items<Name>>, AllocError>
    requires { length words.now < 2 ^ 32 }
    ensures { IfOk result (λ all. (o : Offsets) → o.epoch ≡ epoch → all ≡ map (map (numbered words.now)) (probed o (run_of history.now))) }
{
    let mut all = Items::new(alloc);
    all.push(Items::new(alloc))?;
    if history.commands().is_empty() {
        return Ok(all);
    }
    let mut listing = Listing::begin(alloc, history)?;
    for command in history.commands() {
        take_turn(alloc, &mut all, &mut listing, words, command, epoch)?;
    }
    Ok(all)
}

// Promise P36 (caller): A program gets the names that a server looks up, and all names a history uses, each once; or memory runs out.
//   clauses: ensures; assumes: accepted setup
/// For each command of a history, as that of this epoch, the setup first, the names that a server looks up for it: for a search the
/// label of the word's list, those of its additions up to the first that is missing, and the revocation number of each pair that is
/// listed with it, in the order in which they were; for any other command none. Error: where there is no memory, or no number of 32
/// bits for a word.
pub fn probed_names(
    alloc: Global,
    history: &History,
    epoch: u32,
) -> Result<Items<Items<Name>>, AllocError>
    ensures { IfOk result (λ all. (o : Offsets) → o.epoch ≡ epoch → all ≡ map (map (numbered (run_words (run_of history.now)))) (probed o (run_of history.now))) }
{
    let words = RunWords::of(alloc, history)?;
    if words.len() > u32::MAX as usize {
        return Err(AllocError);
    }
    probed_by_words(alloc, history, &words, epoch)
}
