ghost use Rattle.std.specs.Prelude.{◌≡◌, ◌≢◌, ◌≤◌, ◌<◌, ◌+◌, ◌^◌, ◌∷◌, [], IfOk, None, Some, OnErr, OnOk, filter, length, map};
ghost use Rattle.std.specs.Int.{div_ceil};
ghost use Rattle.client_registry.specs.Acceptance as counts;
ghost use Rattle.client_registry.specs.Command.{Search, is_update};
ghost use Rattle.client_registry.specs.Setup.{setup_with, setup_words};
ghost use Rattle.client_registry.specs.HashNumbers.{hash_numbers};
ghost use Rattle.client_registry.specs.WordBytes.{word_bytes};
ghost use Rattle.client_registry.specs.Epochs.{with_commands};
ghost use Rattle.client_registry.specs.Histories.{commands_in};
ghost use Rattle.client_registry.specs.Run.{last_run};
ghost use Rattle.client_registry.specs.Sized.{IsSizedCommand, words_named};
ghost use Rattle.leakage_history.specs.Commands.{command_of};
ghost use Rattle.leakage_history.specs.HashedEpochs.{epochs_in};
ghost use Rattle.leakage_history.specs.Refusal.{push_refusal};
ghost use Rattle.script_history.specs.Numbered.{fault_refusal, renewal_fault_refusal};
ghost use Rattle.script_history.specs.Reads.{number_refusal};

use client_registry::{Docs, HashKeys, Size, Word};
use leakage_history::{Command, Epochs, History, HistoryFault, RenewalFault};
use sse_script::Refusal;
use std::alloc::{AllocError, Global};
use std::marker::Model;

/// A history whose commands, update frames and words can each be numbered in 32 bits, with the counts that show it.
#[derive(Drop)]
pub struct NumberedHistory {
    history: Epochs,
    /// How many update frames it takes.
    frames: u32,
    /// How many commands it has, the setup and each renewal of the key among them.
    commands: u32,
    /// At least how many different words it has: each is counted as often as a command names it.
    named: u32,
}

impl Model for NumberedHistory {
    ghost use Rattle.leakage_history.specs.HashedEpochs.{HashedEpochs};

    ghost Value = { HashedEpochs };

    ghost use Rattle.script_history.specs.Numbered.{IsNumbered};

    ghost view = { λ h. h.history };

    ghost invariant = { IsNumbered };
}

impl NumberedHistory {
    ghost use Rattle.script_history.specs.Numbered.{accept_refusal, command_refusal, epochs_after, epochs_after_all, epochs_renewed, frames_free, renew_refusal, update_refusal as refused_update};
    ghost use Rattle.script_history.specs.Reads.{IsCountable};

    // Promise P73 (caller): A numbered history refuses a command as a script would, or as full; its commands, frames and words fit 32 bits.
    //   clauses: ensures; assumes: accepted setup, earlier calls; not: How much memory there is: for 2^32 words or more it always runs out.
    /// The history of a setup of these documents, of this size, alone.
    pub fn begin(
        alloc: Global,
        docs: Docs,
        keys: HashKeys,
        size: &Size,
    ) -> Result<NumberedHistory, AllocError>
        requires accepted { counts.size_refusal (setup_with docs.documents size.now.shape.b size.now.shape.big size.now.pad) ≡ None }
        requires words { size.now.words ≡ length (setup_words (setup_with docs.documents size.now.shape.b size.now.shape.big size.now.pad)) }
        requires padded_words { size.now.padded_words ≡ counts.padded_words (setup_with docs.documents size.now.shape.b size.now.shape.big size.now.pad) }
        requires padded_blocks { size.now.padded_blocks ≡ counts.padded_blocks (setup_with docs.documents size.now.shape.b size.now.shape.big size.now.pad) }
        ensures { IfOk result (λ h. h ≡ record { before = []; last = record { setup = setup_with docs.documents size.now.shape.b size.now.shape.big size.now.pad; later = []; keys = hash_numbers keys } }) }
    {
        // Its contract says that the documents keep their limits.
        let _limits = docs.words();
        let frames = setup_frames(size);
        let (b, big) = (size.shape.b(), size.shape.big());
        let history = History::new(alloc, docs, keys, b, big, size.pad)?;
        Ok(NumberedHistory {
            history: Epochs::of(alloc, history),
            frames,
            commands: 1,
            named: size.words,
        })
    }

    // Promise P59, also here; clauses: keys
    // Promise P73, also here; clauses: found, after, may_stop
    /// Takes a command after the others, or tells why it is refused, and then the history is as before.
    ///
    /// Error: out of memory, which comes only if nothing refuses the command but that its words can't be numbered.
    pub fn push(&mut self, command: Command) -> Result<Option<Refusal>, AllocError>
        ensures found { IfOk result (λ found. found ≡ command_refusal (epochs_in self.old) (command_of command)) }
        ensures after { IfOk result (λ found. epochs_in self.new ≡ epochs_after found (epochs_in self.old) (command_of command)) }
        ensures may_stop { OnErr result (accept_refusal (epochs_in self.old) (command_of command) ≡ None) }
        ensures keys { self.new.last.keys ≡ self.old.last.keys }
    {
        if let Some(refusal) = self.refusal(&command) {
            return Ok(Some(refusal));
        }
        if self.commands == u32::MAX {
            return Ok(Some(Refusal::HistoryFull));
        }
        self.push_accepted(command)?;
        Ok(None)
    }

    // Promise P73, also here; clauses: found, after
    /// Takes a search for each of these words, in order, or none of them if the history can't number so many commands.
    ///
    /// Error: out of memory; some of the searches may be taken then.
    pub fn push_searches(&mut self, words: &[Word]) -> Result<Option<Refusal>, AllocError>
        requires some { words.now ≢ [] }
        ensures found { IfOk result (λ found. found ≡ number_refusal (Some (epochs_in self.old)) (map (λ word. Search word) (map word_bytes words.now))) }
        ensures after { IfOk result (λ found. epochs_in self.new ≡ epochs_after_all found (epochs_in self.old) (map (λ word. Search word) (map word_bytes words.now))) }
        ensures keys { self.new.last.keys ≡ self.old.last.keys }
    {
        if words.len() > (u32::MAX - self.commands) as usize {
            return Ok(Some(Refusal::HistoryFull));
        }
        for word in words {
            self.push_accepted(Command::Search(*word))?;
        }
        Ok(None)
    }

    /// Takes a command that isn't refused.
    fn push_accepted(&mut self, command: Command) -> Result<(), AllocError>
        requires accepted { accept_refusal (epochs_in self.old) (command_of command) ≡ None }
        requires valid { IsSizedCommand (command_of command) }
        requires few { commands_in (Some (epochs_in self.old)) + 2 < 2 ^ 32 }
        ensures taken { OnOk result (epochs_in self.new ≡ with_commands (command_of command ∷ []) (epochs_in self.old)) }
        ensures numbered { OnOk result (number_refusal (Some (epochs_in self.old)) (command_of command ∷ []) ≡ None) }
        ensures keys { self.new.last.keys ≡ self.old.last.keys }
    {
        // So many words aren't counted: which of them are different takes a table of 2^32 words.
        let Some(named) = self.named.checked_add(count_words(&command)) else {
            return Err(AllocError);
        };
        let frames = self.frames + count_frames(&command);
        push_known(&mut self.history, command)?;
        self.frames = frames;
        self.commands += 1;
        self.named = named;
        Ok(())
    }

    /// Why a command isn't accepted after the others, or has no number for its update frame.
    fn refusal(&self, command: &Command) -> Option<Refusal>
        ensures refusal { result ≡ accept_refusal (epochs_in self.now) (command_of command.now) }
        ensures valid { IsSizedCommand (command_of command.now) }
    {
        match self.history.refusal(command) {
            Some(fault) => refusal_of(fault),
            None => self.update_refusal(command),
        }
    }

    /// Why an update isn't taken that is accepted.
    fn update_refusal(&self, command: &Command) -> Option<Refusal>
        ensures { result ≡ refused_update (epochs_in self.now) (command_of command.now) }
    {
        if count_frames(command) > u32::MAX - self.frames {
            return Some(Refusal::HistoryFull);
        }
        None
    }

    // Promise P59, also here; clauses: keys
    // Promise P73, also here; clauses: found, after
    /// Renews the key after the commands so far, or tells why not, and then the history is as before. Whether an epoch had this
    /// key isn't tested.
    ///
    /// Error: out of memory, which may come in place of any refusal.
    pub fn renew(&mut self, key: [u8; 32]) -> Result<Option<Refusal>, AllocError>
        ensures found { IfOk result (λ found. found ≡ renew_refusal (epochs_in self.old) key) }
        ensures after { IfOk result (λ found. epochs_in self.new ≡ epochs_renewed found (epochs_in self.old) key) }
        ensures keys { self.new.last.keys ≡ self.old.last.keys }
    {
        let most = self.frames_free();
        match self.history.renew(key, most) {
            Ok(size) => {
                self.frames += setup_frames(&size);
                self.commands += 1;
                Ok(None)
            }
            Err(fault) => Ok(Some(renewal_refusal_of(fault)?)),
        }
    }

    /// How many update frames a renewal may take: none where it would have no number as a command, so that it is refused as full.
    fn frames_free(&self) -> u32
        ensures { result ≡ frames_free (epochs_in self.now) }
    {
        if self.commands < u32::MAX {
            u32::MAX - self.frames
        } else {
            0
        }
    }

    // Promise P73, also here; clauses: same, counted
    /// The history alone.
    pub fn into_history(self) -> Epochs
        ensures same { result ≡ self }
        ensures counted { IsCountable (Some (epochs_in self)) }
    {
        let NumberedHistory { history, .. } = self;
        history
    }
}

/// Takes a command that is accepted.
fn push_known(history: &mut Epochs, command: Command) -> Result<(), AllocError>
    requires { push_refusal (last_run (epochs_in history.old)) (command_of command) ≡ None }
    ensures taken { OnOk result (epochs_in history.new ≡ with_commands (command_of command ∷ []) (epochs_in history.old)) }
    ensures kept { OnErr result (history.new ≡ history.old) }
    ensures keys { history.new.last.keys ≡ history.old.last.keys }
{
    match history.push(command) {
        Ok(()) => Ok(()),
        Err(HistoryFault::NoMemory) => Err(AllocError),
        Err(_) => unreachable!(),
    }
}

/// The refusal that a fault of a history is.
fn refusal_of(fault: HistoryFault) -> Option<Refusal>
    ensures { result ≡ fault_refusal fault }
{
    match fault {
        HistoryFault::AlreadyLive(id) => Some(Refusal::AlreadyLive { id }),
        HistoryFault::UnknownDocument(id) => Some(Refusal::UnknownDocument { id }),
        HistoryFault::CounterFull(position) => Some(Refusal::CounterFull { position }),
        HistoryFault::NoMemory => None,
    }
}

/// The refusal that a fault of a renewal is.
fn renewal_refusal_of(fault: RenewalFault) -> Result<Refusal, AllocError>
    ensures refusal { IfOk result (λ refusal. renewal_fault_refusal fault ≡ Some refusal) }
    ensures other { IfOk result (λ refusal. fault ≢ RenewalFault.NoMemory) }
{
    match fault {
        RenewalFault::TooManyDocuments(n) => Ok(Refusal::TooManyDocuments { n }),
        RenewalFault::TooManyPairs(n) => Ok(Refusal::TooManyPairs { n }),
        RenewalFault::ListTooLong { word, n } => Ok(Refusal::ListTooLong { word, n }),
        RenewalFault::TooManyBytes(n) => Ok(Refusal::TooManyBytes { n }),
        RenewalFault::HistoryFull => Ok(Refusal::HistoryFull),
        RenewalFault::NoMemory => Err(AllocError),
    }
}

/// How many update frames a command takes after the setup.
fn count_frames(command: &Command) -> u32
    ensures count { result ≡ length (filter is_update (command_of command.now ∷ [])) }
    ensures within { result ≤ 1 }
{
    match command {
        Command::Add(_) => 1,
        Command::Delete(_) => 1,
        Command::Search(_) => 0,
    }
}

/// How many words it names: at most 4,096.
fn count_words(command: &Command) -> u32
    ensures { result ≡ length (words_named (command_of command.now)) }
{
    match command {
        Command::Add(doc) => doc.words().len() as u32,
        Command::Delete(_) => 0,
        Command::Search(_) => 1,
    }
}

/// How many update frames the setup of an index of this size takes.
fn setup_frames(size: &Size) -> u32
    requires { 2 + div_ceil size.now.padded_words 1024 + div_ceil size.now.padded_blocks 256 < 2 ^ 32 }
    ensures { result ≡ 2 + div_ceil size.now.padded_words 1024 + div_ceil size.now.padded_blocks 256 }
{
    2 + size.padded_words.div_ceil(1024) + size.padded_blocks.div_ceil(256)
}
