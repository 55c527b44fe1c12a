ghost use Rattle.std.specs.Prelude.{◌≡◌, ◌+◌, ◌<◌, ◌^◌, ◌++◌, ◌∷◌, [], ℕ, All, IfOk, List, None, OnOk, Some, length, map, true};
ghost use Rattle.client_registry.specs.Acceptance.{size_refusal};
ghost use Rattle.client_registry.specs.Command.{Command as Meant, Delete as deletes, Search as searches};
ghost use Rattle.client_registry.specs.Epochs.{next_begins};
ghost use Rattle.client_registry.specs.IdNumber.{id_number};
ghost use Rattle.client_registry.specs.Numbered.{words_by_number};
ghost use Rattle.client_registry.specs.Over.{over};
ghost use Rattle.client_registry.specs.Registered.{facts, known_words};
ghost use Rattle.client_registry.specs.Run.{Offsets};
ghost use Rattle.client_registry.specs.Setup.{Setup};
ghost use Rattle.client_registry.specs.WordBytes.{word_bytes};
ghost use Rattle.leakage_history.specs.Commands.{command_of};
ghost use Rattle.leakage_history.specs.HashedEpochs.{epochs_in};
ghost use Rattle.leakage_history.specs.HashedRun.{run_of};
ghost use Rattle.leakage_history.specs.Refusal.{is_accepted_by};
ghost use Rattle.leakage_model.specs.TrailFacts.{Follows};
ghost use Rattle.leakage_frames.specs.Views.{leak_view, word_view};
ghost use Rattle.def_leakage.specs.CommandLeaks as leakage;
ghost use Rattle.def_leakage.specs.Histories.{leak_in};
ghost use Rattle.sse_simulator.specs.Leaks.{DeleteLeak};

use crate::setup_size::size_of_setup;
use crate::trail::Trail;
use client_registry::{DocId, Word};
use leakage_frames::{Leak, WordLeak};
use leakage_history::{Command, Epochs, History};
use sse_frames::Items;
use std::alloc::{AllocError, Global};

/// What the setup of a history leaks.
fn setup_leak(history: &History) -> Leak
    requires { size_refusal history.now.setup ≡ None }
    ensures { (epoch : ℕ) → leak_view result ≡ leakage.leak_of_setup epoch history.now.setup }
{
    let size = size_of_setup(history);
    Leak::Setup {
        b: history.b(),
        big: history.big(),
        words: size.padded_words,
        blocks: size.padded_blocks,
    }
}

impl Trail {
    // Promise P43, also here; clauses: ensures
    /// What the next command would leak.
    pub fn leak(&self, alloc: Global, command: &Command) -> Result<Leak, AllocError>
        ensures { (o : Offsets) (s : Setup) (past : List Meant) → Follows self.now o s past → IfOk result (λ leak. leak_view leak ≡ leakage.leak_by o s past (command_of command.now)) }
    {
        match command {
            Command::Add(doc) => {
                let words = self.words_added(alloc, doc.words(), doc.id())?;
                Ok(Leak::Add { words })
            }
            Command::Delete(id) => {
                let words = self.document_deleted(alloc, *id)?;
                Ok(Leak::Delete { words })
            }
            Command::Search(word) => self.search_leak(alloc, word),
        }
    }

    /// What an addition with this identifier would show of each of these words.
    fn words_added(
        &self,
        alloc: Global,
        words: &[Word],
        id: DocId,
    ) -> Result<Items<WordLeak>, AllocError>
        ensures { (o : Offsets) (s : Setup) (past : List Meant) → Follows self.now o s past → IfOk result (λ leaks. map word_view leaks ≡ map (leakage.word_added o s past (id_number id)) (map word_bytes words.now)) }
    {
        let mut leaks = Items::new(alloc);
        for word in words {
            leaks.push(self.word_added(word, id))?;
        }
        Ok(leaks)
    }

    /// What a deletion of this identifier would show of each word of its live document.
    fn document_deleted(&self, alloc: Global, id: DocId) -> Result<Items<WordLeak>, AllocError>
        ensures { (o : Offsets) (s : Setup) (past : List Meant) → Follows self.now o s past → IfOk result (λ leaks. DeleteLeak (map word_view leaks) ≡ leakage.leak_by o s past (deletes (id_number id))) }
    {
        match self.registry.get(id) {
            Some(doc) => self.words_deleted(alloc, doc.numbers, id),
            None => Ok(Items::new(alloc)),
        }
    }

    /// What a deletion of this identifier would show of the words of these numbers.
    fn words_deleted(
        &self,
        alloc: Global,
        numbers: &[u32],
        id: DocId,
    ) -> Result<Items<WordLeak>, AllocError>
        requires { All (λ n. n < length (known_words self.now.registry)) numbers.now }
        ensures { (o : Offsets) (s : Setup) (past : List Meant) → Follows self.now o s past → IfOk result (λ leaks. map word_view leaks ≡ map (leakage.word_deleted o s past (id_number id)) (words_by_number (known_words self.now.registry) numbers.now)) }
    {
        let mut leaks = Items::new(alloc);
        for number in numbers {
            let word = self.registry.word(*number as usize);
            leaks.push(self.word_deleted(word, id))?;
        }
        Ok(leaks)
    }

    /// What a search of this word would show.
    fn search_leak(&self, alloc: Global, word: &Word) -> Result<Leak, AllocError>
        ensures { (o : Offsets) (s : Setup) (past : List Meant) → Follows self.now o s past → IfOk result (λ leak. leak_view leak ≡ leakage.leak_by o s past (searches (word_bytes word.now))) }
    {
        match self.words.get(word) {
            Some(trail) => trail.search_leak(alloc),
            None => Ok(Leak::Search {
                earlier: None,
                home: None,
                listed: Items::new(alloc),
                found: Items::new(alloc),
            }),
        }
    }
}

/// Appends what a command leaks, and takes the command.
fn leak_next(
    alloc: Global,
    leaks: &mut Items<Leak>,
    trail: &mut Trail,
    command: &Command,
) -> Result<(), AllocError>
    requires accepted { is_accepted_by (facts trail.old.registry) (command_of command.now) ≡ true }
    requires numbered { trail.old.next + 1 < 2 ^ 32 }
    ensures leaked { OnOk result ((o : Offsets) (s : Setup) (past : List Meant) → Follows trail.old o s past → map leak_view leaks.new ≡ map leak_view leaks.old ++ leakage.leak_by o s past (command_of command.now) ∷ []) }
    ensures follows { OnOk result ((o : Offsets) (s : Setup) (past : List Meant) → Follows trail.old o s past → Follows trail.new o s (past ++ command_of command.now ∷ [])) }
{
    let leak = trail.leak(alloc, command)?;
    leaks.push(leak)?;
    trail.take(command)?;
    Ok(())
}

/// Appends what each command after the setup leaks. The setup is command number `first`, and the trail is that of the setup alone.
fn leak_commands(
    alloc: Global,
    history: &History,
    leaks: &mut Items<Leak>,
    trail: &mut Trail,
    first: u32,
) -> Result<(), AllocError>
    requires begun { (o : Offsets) → o.command ≡ first → Follows trail.old o history.now.setup [] }
    requires numbered { first + length history.now.later + 1 < 2 ^ 32 }
    ensures { OnOk result ((o : Offsets) → o.command ≡ first → map leak_view leaks.new ≡ map leak_view leaks.old ++ over (leakage.leak_by o history.now.setup) [] history.now.later) }
{
    for command in history.commands() {
        leak_next(alloc, leaks, trail, command)?;
    }
    Ok(())
}

/// Appends what the setup and each command after it leak. The setup is command number `first`.
fn leak_into(
    alloc: Global,
    history: &History,
    leaks: &mut Items<Leak>,
    first: u32,
) -> Result<(), AllocError>
    requires sized { size_refusal history.now.setup ≡ None }
    requires numbered { first + length history.now.later + 1 < 2 ^ 32 }
    ensures { OnOk result ((o : Offsets) → o.command ≡ first → map leak_view leaks.new ≡ map leak_view leaks.old ++ leakage.leak o (run_of history.now)) }
{
    leaks.push(setup_leak(history))?;
    if history.commands().is_empty() {
        return Ok(());
    }
    let mut trail = Trail::begin_at(alloc, history, first)?;
    let leaked = leak_commands(alloc, history, leaks, &mut trail, first);
    drop(trail);
    leaked
}

// Promise P42, also here; clauses: ensures
/// What each command of an epoch leaks, if the epoch's setup is command number `first` of its history.
///
/// Error: where there is no memory.
pub fn leak_from(alloc: Global, history: &History, first: u32) -> Result<Items<Leak>, AllocError>
    requires sized { size_refusal history.now.setup ≡ None }
    requires numbered { first + length history.now.later + 1 < 2 ^ 32 }
    ensures { IfOk result (λ leaks. (o : Offsets) → o.command ≡ first → map leak_view leaks ≡ leakage.leak o (run_of history.now)) }
{
    let mut leaks = Items::new(alloc);
    match leak_into(alloc, history, &mut leaks, first) {
        Ok(()) => Ok(leaks),
        Err(error) => {
            drop(leaks);
            Err(error)
        }
    }
}

/// Appends what each command of these epochs leaks.
fn leak_each(alloc: Global, epochs: &Epochs, leaks: &mut Items<Leak>) -> Result<(), AllocError>
    requires { (next_begins (epochs_in epochs.now)).command < 2 ^ 32 }
    ensures { OnOk result (map leak_view leaks.new ≡ map leak_view leaks.old ++ leak_in (Some (epochs_in epochs.now))) }
{
    let mut first: u32 = 0;
    for number in 0..epochs.len() {
        let history = epochs.epoch(number);
        leak_into(alloc, history, leaks, first)?;
        first += history.len() as u32;
    }
    Ok(())
}

// Promise P42 (caller): A program gets the leakage of each command of a history, by the definitions of docs/LEAKAGE.md; or memory runs out.
//   clauses: ensures; assumes: countable history; checks: .ci/leakage; not: How long it takes.
/// What each command of a history leaks, the setup first: the shape of the index and its counts; of each word of an update
/// what is sent for it and whether it was searched before; of a search the first search of its word, where the setup holds it, and
/// what is listed with it and found. A renewal of the key leaks what a setup does. The commands can be numbered in 32 bits. It takes time
/// in proportion to the commands and to the pairs that they name or find, but for a pair that was named before: it is found among those of
/// its word by halving, where their identifiers rise in the order in which they were listed, and else by a hash.
///
/// Error: where there is no memory.
pub fn leak_epochs(alloc: Global, epochs: &Epochs) -> Result<Items<Leak>, AllocError>
    requires numbered { (next_begins (epochs_in epochs.now)).command < 2 ^ 32 }
    ensures { IfOk result (λ leaks. map leak_view leaks ≡ leak_in (Some (epochs_in epochs.now))) }
{
    let mut leaks = Items::new(alloc);
    match leak_each(alloc, epochs, &mut leaks) {
        Ok(()) => Ok(leaks),
        Err(error) => {
            drop(leaks);
            Err(error)
        }
    }
}
