ghost use Rattle.std.specs.Prelude.{◌≡◌, ◌+◌, ◌++◌, ◌∷◌, [], IfOk, IfSome, IsOkUnless, List, None, OnErr, OnOk, Some, if◌then◌else◌, length, map, true};
ghost use Rattle.client_registry.specs.Command.{Command as Meant, Add};
ghost use Rattle.client_registry.specs.DocumentRule.{IsDocument};
ghost use Rattle.client_registry.specs.IdNumber.{id_number};
ghost use Rattle.client_registry.specs.Registered.{Represents, facts};
ghost use Rattle.client_registry.specs.Run.{Run};
ghost use Rattle.client_registry.specs.Setup.{Setup};
ghost use Rattle.client_registry.specs.Sized.{IsSizedCommand};
ghost use Rattle.leakage_history.specs.Commands.{command_of};
ghost use Rattle.leakage_history.specs.HashedRun.{run_of};
ghost use Rattle.leakage_history.specs.Refusal.{is_accepted_by, push_refusal};

use crate::command::Command;
use crate::fault::HistoryFault;
use crate::registration::register;
use client_live_docs::copy_docs;
use client_registry::{Doc, DocId, Docs, HashKeys, Registry};
use std::alloc::{AllocError, Global};
use std::marker::Model;

/// A setup, and the commands that were accepted after it.
#[derive(Drop)]
pub struct History {
    docs: Docs,
    keys: HashKeys,
    b: u16,
    big: u16,
    pad: u16,
    /// What is live, listed and counted after the commands; none before the first, where the documents alone tell it.
    registry: Option<Registry>,
    commands: Vec<Command>,
}

impl Model for History {
    ghost use Rattle.leakage_history.specs.HashedRun.{HashedRun};

    ghost Value = { HashedRun };

    ghost use Rattle.leakage_history.specs.HistoryView.{IsRegistered, history_of};

    ghost view = { history_of };

    ghost invariant = { IsRegistered };
}

impl History {
    ghost use Rattle.client_registry.specs.HashNumbers.{hash_numbers};
    ghost use Rattle.client_registry.specs.Registered.{known_words};
    ghost use Rattle.client_registry.specs.Setup.{setup_with, setup_words};
    ghost use Rattle.leakage_history.specs.Refusal.{AreAccepted};

    // Promise P59, also here; clauses: ensures
    // Promise P72 (caller): A history takes a command if and only if it is accepted after the earlier ones; a refusal changes nothing.
    //   clauses: ensures; not: That its parameters make an index. Out of memory may come in place of taking it.
    /// The history of a setup of these documents alone, with `b` numbers in a cell and `big` in a block, filled with dummies up
    /// to multiples of `pad`. Its tables hash under these keys. Whether there is an index of these parameters,
    /// `client_registry::size_of` says.
    pub fn new(
        alloc: Global,
        docs: Docs,
        keys: HashKeys,
        b: u16,
        big: u16,
        pad: u16,
    ) -> Result<History, AllocError>
        ensures { IfOk result (λ h. h ≡ record { setup = setup_with docs.documents b big pad; later = []; keys = hash_numbers keys }) }
    {
        // Its contract says that the documents keep their limits.
        let _limits = docs.words();
        Ok(History {
            docs,
            keys,
            b,
            big,
            pad,
            registry: None,
            commands: Vec::new(alloc),
        })
    }

    // Promise P72, also here; clauses: ok, err, refused, accepted
    /// Takes a command after the others.
    ///
    /// Errors, the first that stands: `AlreadyLive(id)` where the document of an addition has the identifier of a live one;
    /// `UnknownDocument(id)` where none is live of the identifier to be deleted; `CounterFull(position)` at the least position,
    /// from 0, of a word of an addition whose pair would be new and that has no counter left. With none of these, `NoMemory`
    /// where there is no memory. After an error the history is as before, and the command is dropped.
    pub fn push(&mut self, command: Command) -> Result<(), HistoryFault>
        ensures ok { OnOk result (self.new ≡ record { setup = self.old.setup; later = self.old.later ++ command_of command ∷ []; keys = self.old.keys }) }
        ensures err { OnErr result (self.new ≡ self.old) }
        ensures refused { IfSome (push_refusal (run_of self.old) (command_of command)) (λ fault. result ≡ Err fault) }
        ensures accepted { push_refusal (run_of self.old) (command_of command) ≡ None → IsOkUnless result HistoryFault.NoMemory }
    {
        if let Some(fault) = self.refusal(&command) {
            return Err(fault);
        }
        match &mut self.registry {
            Some(registry) => Ok(take(registry, &mut self.commands, command)?),
            None => {
                let alloc = *self.commands.allocator();
                let mut registry = self.begun_registry(alloc)?;
                take(&mut registry, &mut self.commands, command)?;
                self.registry = Some(registry);
                Ok(())
            }
        }
    }

    // Promise P72, also here; clauses: refusal
    /// Why a command isn't accepted after the others; with none, [`History::push`] takes it or is out of memory.
    pub fn refusal(&self, command: &Command) -> Option<HistoryFault>
        ensures refusal { result ≡ push_refusal (run_of self.now) (command_of command.now) }
        ensures valid { IsSizedCommand (command_of command.now) }
    {
        match &self.registry {
            Some(registry) => refusal_by(registry, command),
            None => first_refusal(&self.docs, command),
        }
    }

    // Promise P72, also here; clauses: len
    /// How many commands, the setup included.
    pub fn len(&self) -> usize
        ensures len { result ≡ length self.now.later + 1 }
        ensures valid { AreAccepted (run_of self.now) }
    {
        self.commands.len() + 1
    }

    // Promise P72, also here; clauses: valid
    /// The commands after the setup, in their order.
    pub fn commands(&self) -> &[Command]
        ensures commands { map command_of result.now ≡ self.now.later }
        ensures valid { AreAccepted (run_of self.now) }
    {
        self.commands.as_slice()
    }

    /// The documents of the setup.
    pub fn docs(&self) -> &Docs
        ensures { result.now.documents ≡ self.now.setup.documents }
    {
        &self.docs
    }

    /// How many numbers a cell of the setup has.
    pub fn b(&self) -> u16
        ensures { result ≡ self.now.setup.shape.b }
    {
        self.b
    }

    /// How many numbers a block of the setup has.
    pub fn big(&self) -> u16
        ensures { result ≡ self.now.setup.shape.big }
    {
        self.big
    }

    /// Up to multiples of which number dummies are added at the setup.
    pub fn pad(&self) -> u16
        ensures { result ≡ self.now.setup.pad }
    {
        self.pad
    }

    // Promise P59, also here; clauses: ensures
    /// The keys under which its tables hash.
    pub fn keys(&self) -> HashKeys
        ensures { hash_numbers result ≡ self.now.keys }
    {
        self.keys
    }

    /// What is live, listed and counted after the commands; none before the first.
    pub(crate) fn registry(&self) -> Option<&Registry>
        ensures told { IfSome result (λ registry. Represents registry.now self.now.setup self.now.later) }
        ensures first { result ≡ None → self.now.later ≡ [] }
        ensures valid { AreAccepted (run_of self.now) }
    {
        self.registry.as_ref()
    }

    // Promise P59, also here; clauses: keys
    // Promise P76, also here; clauses: setup, words
    /// A registry that was told the setup alone: [`register`] tells it a command after the others. It hashes under the keys of the
    /// history.
    pub fn begun_registry(&self, alloc: Global) -> Result<Registry, AllocError>
        ensures setup { IfOk result (λ registry. Represents registry self.now.setup []) }
        ensures words { IfOk result (λ registry. known_words registry ≡ setup_words self.now.setup) }
        ensures keys { IfOk result (λ registry. registry.keys ≡ self.now.keys) }
    {
        Ok(Registry::from_docs(copy_docs(alloc, &self.docs, self.keys)?))
    }
}

/// Takes a command after the others, and tells it to their registry. All memory is taken first, so that nothing fails once something has
/// changed.
fn take(
    registry: &mut Registry,
    commands: &mut Vec<Command>,
    command: Command,
) -> Result<(), AllocError>
    requires accepted { is_accepted_by (facts registry.old) (command_of command) ≡ true }
    ensures registered { OnOk result ((s : Setup) (past : List Meant) → Represents registry.old s past → Represents registry.new s (past ++ command_of command ∷ [])) }
    ensures taken { OnOk result (commands.new.items ≡ commands.old.items ++ command ∷ []) }
    ensures same { OnErr result (facts registry.new ≡ facts registry.old) }
    ensures kept { OnErr result (commands.new.items ≡ commands.old.items) }
{
    commands.reserve(1)?;
    register(registry, &command)?;
    commands.push_reserved(command);
    Ok(())
}

/// Why a command isn't accepted after those that a registry was told.
fn refusal_by(registry: &Registry, command: &Command) -> Option<HistoryFault>
    ensures refusal { (run : Run) → Represents registry.now run.setup run.later → result ≡ push_refusal run (command_of command.now) }
    ensures valid { IsSizedCommand (command_of command.now) }
{
    match command {
        Command::Add(doc) => addition_refusal(registry, doc),
        Command::Delete(id) => deletion_refusal(registry.is_live(*id), *id),
        Command::Search(_) => None,
    }
}

/// Why a document isn't added then.
fn addition_refusal(registry: &Registry, doc: &Doc) -> Option<HistoryFault>
    ensures refusal { (run : Run) → Represents registry.now run.setup run.later → result ≡ push_refusal run (Add doc.now) }
    ensures valid { IsDocument doc.now }
{
    // Its contract says that the document keeps its limits.
    let _words = doc.words();
    if registry.is_live(doc.id()) {
        return Some(HistoryFault::AlreadyLive(doc.id().get()));
    }
    match registry.full_counter(doc) {
        Some(position) => Some(HistoryFault::CounterFull(position)),
        None => None,
    }
}

/// Why a command isn't accepted as the first after a setup of these documents, where each word has all of its counter left.
fn first_refusal(docs: &Docs, command: &Command) -> Option<HistoryFault>
    ensures refusal { (run : Run) → run.setup.documents ≡ docs.now.documents → run.later ≡ [] → result ≡ push_refusal run (command_of command.now) }
    ensures valid { IsSizedCommand (command_of command.now) }
{
    match command {
        Command::Add(doc) => {
            // Its contract says that the document keeps its limits.
            let _words = doc.words();
            if docs.is_live(doc.id()) {
                return Some(HistoryFault::AlreadyLive(doc.id().get()));
            }
            None
        }
        Command::Delete(id) => deletion_refusal(docs.is_live(*id), *id),
        Command::Search(_) => None,
    }
}

/// Why the document of an identifier isn't deleted, by whether there is a live one.
fn deletion_refusal(is_live: bool, id: DocId) -> Option<HistoryFault>
    ensures { result ≡ (if is_live then None else Some (HistoryFault.UnknownDocument (id_number id))) }
{
    if is_live {
        return None;
    }
    Some(HistoryFault::UnknownDocument(id.get()))
}
