ghost use Rattle.std.specs.Prelude.{◌≡◌, ◌+◌, [], ◌∷◌, ℕ, IfOk, IfSome, None, OnOk, Some, filter, is_some, length, true};
ghost use Rattle.std.specs.Int.{div_ceil};
ghost use Rattle.client_registry.specs.Acceptance.{frames_needed, padded_blocks, padded_words, size_refusal};
ghost use Rattle.client_registry.specs.Command.{is_update};
ghost use Rattle.client_registry.specs.Epochs.{AreEpochs, Does, Renews, setup_renewed, with_commands, with_renewal};
ghost use Rattle.client_registry.specs.Histories.{IsWhole};
ghost use Rattle.client_registry.specs.Run.{last_run};
ghost use Rattle.client_registry.specs.Setup.{setup_with};
ghost use Rattle.def_duel.specs.Choices as choices;
ghost use Rattle.def_leakage.specs.CommandLeaks.{leak_of_setup};
ghost use Rattle.leakage_frames.specs.Views.{leak_view};
ghost use Rattle.leakage_history.specs.Commands.{command_of};
ghost use Rattle.leakage_history.specs.HashedEpochs.{epochs_in};
ghost use Rattle.leakage_history.specs.Refusal.{push_refusal};
ghost use Rattle.leakage_history.specs.Renewals.{IsIndexSize, renewal_refusal};
ghost use Rattle.sse_game.specs.Side.{HasTaken, IsNumbered, IsSide, epochs_at, history_at};
ghost use Rattle.sse_game.specs.Views.{choice_view, setup_view};

use crate::choice::{Choice, NewSetup};
use client_registry::{Docs, HashKeys, Size, size_of};
use leakage_frames::Leak;
use leakage_history::{Command, Epochs, History, HistoryFault, RenewalFault};
use leakage_model::Trail;
use std::alloc::{AllocError, Global};

/// A history of a duel, with a trail of its last epoch: what its next command would leak.
#[derive(Drop)]
pub(crate) struct Side {
    pub(crate) epochs: Epochs,
    pub(crate) trail: Trail,
    /// How many commands it has, the setup and renewals among them: the number of the next one.
    pub(crate) commands: u32,
    /// How many update frames it takes.
    pub(crate) frames: u32,
}

/// The history of this setup alone, with what the setup leaks; none if the setup isn't accepted.
pub(crate) fn begin(
    alloc: Global,
    new: NewSetup,
    keys: HashKeys,
) -> Result<Option<(Side, Leak)>, AllocError>
    ensures taken { IfOk result (λ begun. is_some begun ≡ choices.can_take None (choices.SetsUp (setup_view new))) }
    ensures begun { IfOk result (λ begun. IfSome begun (λ one. HasTaken None (choices.SetsUp (setup_view new)) one.0 (leak_view one.1))) }
{
    let NewSetup { docs, sizes } = new;
    match size_of(&docs, sizes) {
        Ok(size) => {
            let begun = begun(alloc, docs, keys, &size)?;
            Ok(Some(begun))
        }
        Err(_) => {
            // Its contract says that the documents keep their limits.
            let _limits = docs.words();
            Ok(None)
        }
    }
}

/// The history of these documents alone, whose index has this size, with what the setup leaks.
fn begun(alloc: Global, docs: Docs, keys: HashKeys, size: &Size) -> Result<(Side, Leak), AllocError>
    requires accepted { size_refusal (setup_with docs.documents size.now.shape.b size.now.shape.big size.now.pad) ≡ None }
    requires words { size.now.padded_words ≡ padded_words (setup_with docs.documents size.now.shape.b size.now.shape.big size.now.pad) }
    requires blocks { size.now.padded_blocks ≡ padded_blocks (setup_with docs.documents size.now.shape.b size.now.shape.big size.now.pad) }
    ensures taken { OnOk result (choices.can_take None (choices.SetsUp (setup_with docs.documents size.now.shape.b size.now.shape.big size.now.pad)) ≡ true) }
    ensures begun { IfOk result (λ one. HasTaken None (choices.SetsUp (setup_with docs.documents size.now.shape.b size.now.shape.big size.now.pad)) one.0 (leak_view one.1)) }
{
    // Its contract says that the documents keep their limits.
    let _limits = docs.words();
    let (b, big) = (size.shape.b(), size.shape.big());
    let history = History::new(alloc, docs, keys, b, big, size.pad)?;
    let leak = setup_leak(&history, size);
    let side = side_of(
        alloc,
        history,
        setup_frames(size.padded_words, size.padded_blocks),
    )?;
    Ok((side, leak))
}

/// The side of a history of one epoch without commands, whose setup takes so many update frames.
fn side_of(alloc: Global, history: History, frames: u32) -> Result<Side, AllocError>
    requires accepted { size_refusal history.setup ≡ None }
    requires alone { history.later ≡ [] }
    requires frames { frames ≡ frames_needed history.setup }
    ensures { IfOk result (λ side. IsSide side × (history_at side ≡ choices.grown None (choices.SetsUp history.setup))) }
{
    let trail = Trail::begin(alloc, &history)?;
    let epochs = Epochs::of(alloc, history);
    // Its contract says that the epochs keep the rules of a history.
    let _epochs = epochs.len();
    Ok(Side {
        epochs,
        trail,
        commands: 1,
        frames,
    })
}

/// Takes a command that the history takes, and returns what it leaks. Without memory the side is of no use.
pub(crate) fn take(alloc: Global, side: &mut Side, choice: Choice) -> Result<Leak, AllocError>
    requires side { IsSide side.old }
    requires taken { choices.can_take (history_at side.old) (choice_view choice) ≡ true }
    ensures { IfOk result (λ leak. HasTaken (history_at side.old) (choice_view choice) side.new (leak_view leak)) }
{
    match choice {
        Choice::SetUp(_) => unreachable!(),
        Choice::Do(command) => take_command(alloc, side, command),
        Choice::Renew(key) => take_renewal(alloc, side, key),
    }
}

/// The same of a command after a setup.
fn take_command(alloc: Global, side: &mut Side, command: Command) -> Result<Leak, AllocError>
    requires side { IsSide side.old }
    requires taken { choices.can_take (history_at side.old) (choices.Goes (Does (command_of command))) ≡ true }
    ensures { IfOk result (λ leak. HasTaken (history_at side.old) (choices.Goes (Does (command_of command))) side.new (leak_view leak)) }
{
    let leak = side.trail.leak(alloc, &command)?;
    match push(side, command) {
        Ok(()) => Ok(leak),
        Err(error) => {
            drop(leak);
            Err(error)
        }
    }
}

/// Takes a command that the history takes after a setup.
fn push(side: &mut Side, command: Command) -> Result<(), AllocError>
    requires side { IsSide side.old }
    requires taken { choices.can_take (history_at side.old) (choices.Goes (Does (command_of command))) ≡ true }
    ensures side { OnOk result (IsSide side.new) }
    ensures after { OnOk result (epochs_at side.new ≡ with_commands (command_of command ∷ []) (epochs_at side.old)) }
{
    side.trail.take(&command)?;
    side.commands += 1;
    side.frames += count_frames(&command);
    push_known(&mut side.epochs, command)
}

/// Takes a command that is accepted.
fn push_known(epochs: &mut Epochs, command: Command) -> Result<(), AllocError>
    requires { push_refusal (last_run (epochs_in epochs.old)) (command_of command) ≡ None }
    ensures taken { OnOk result (epochs_in epochs.new ≡ with_commands (command_of command ∷ []) (epochs_in epochs.old)) }
    ensures kept { OnOk result (AreEpochs (epochs_in epochs.new) × IsWhole (Some (epochs_in epochs.new))) }
{
    match epochs.push(command) {
        Ok(()) => {
            // Its contract says that the epochs keep the rules of a history.
            let _epochs = epochs.len();
            Ok(())
        }
        Err(HistoryFault::NoMemory) => Err(AllocError),
        Err(_) => unreachable!(),
    }
}

/// Takes a renewal under this key.
fn take_renewal(alloc: Global, side: &mut Side, key: [u8; 32]) -> Result<Leak, AllocError>
    requires side { IsSide side.old }
    requires taken { choices.can_take (history_at side.old) (choices.Goes (Renews key)) ≡ true }
    ensures { IfOk result (λ leak. HasTaken (history_at side.old) (choices.Goes (Renews key)) side.new (leak_view leak)) }
{
    let size = renew(side, key)?;
    begin_trail(alloc, side)?;
    Ok(setup_leak(side.epochs.last(), &size))
}

/// Begins an epoch under this key, and returns the size of its index. The trail is still that of the epoch before.
fn renew(side: &mut Side, key: [u8; 32]) -> Result<Size, AllocError>
    requires side { IsSide side.old }
    requires taken { choices.can_take (history_at side.old) (choices.Goes (Renews key)) ≡ true }
    ensures after { OnOk result (epochs_at side.new ≡ with_renewal key (epochs_at side.old)) }
    ensures numbered { OnOk result (IsNumbered side.new) }
    ensures size { IfOk result (λ size. IsIndexSize size (setup_renewed (last_run (epochs_at side.old)))) }
{
    let most = u32::MAX - side.frames;
    let size = renew_epochs(&mut side.epochs, key, most)?;
    side.commands += 1;
    side.frames += setup_frames(size.padded_words, size.padded_blocks);
    Ok(size)
}

/// Begins an epoch that nothing refuses.
fn renew_epochs(epochs: &mut Epochs, key: [u8; 32], most: u32) -> Result<Size, AllocError>
    requires { renewal_refusal most (setup_renewed (last_run (epochs_in epochs.old))) ≡ None }
    ensures after { OnOk result (epochs_in epochs.new ≡ with_renewal key (epochs_in epochs.old)) }
    ensures kept { OnOk result (AreEpochs (epochs_in epochs.new) × IsWhole (Some (epochs_in epochs.new))) }
    ensures size { IfOk result (λ size. IsIndexSize size (setup_renewed (last_run (epochs_in epochs.old)))) }
{
    match epochs.renew(key, most) {
        Ok(size) => {
            // Its contract says that the epochs keep the rules of a history.
            let _epochs = epochs.len();
            Ok(size)
        }
        Err(RenewalFault::NoMemory) => Err(AllocError),
        Err(_) => unreachable!(),
    }
}

/// Begins the trail of the last epoch, which has no commands yet.
fn begin_trail(alloc: Global, side: &mut Side) -> Result<(), AllocError>
    requires numbered { IsNumbered side.old }
    requires alone { (last_run (epochs_at side.old)).later ≡ [] }
    ensures side { OnOk result (IsSide side.new) }
    ensures same { OnOk result (epochs_at side.new ≡ epochs_at side.old) }
{
    side.trail = Trail::begin_at(alloc, side.epochs.last(), side.commands - 1)?;
    Ok(())
}

/// What the setup of an epoch leaks, whose index has this size.
fn setup_leak(history: &History, size: &Size) -> Leak
    requires words { size.now.padded_words ≡ padded_words history.now.setup }
    requires blocks { size.now.padded_blocks ≡ padded_blocks history.now.setup }
    ensures { (epoch : ℕ) → leak_view result ≡ leak_of_setup epoch history.now.setup }
{
    Leak::Setup {
        b: history.b(),
        big: history.big(),
        words: size.padded_words,
        blocks: size.padded_blocks,
    }
}

/// How many update frames a setup of so many entries and blocks takes.
pub(crate) fn setup_frames(words: u32, blocks: u32) -> u32
    ensures { result ≡ 2 + div_ceil words 1024 + div_ceil blocks 256 }
{
    2 + words.div_ceil(1024) + blocks.div_ceil(256)
}

/// How many update frames a command takes after the setup.
pub(crate) fn count_frames(command: &Command) -> u32
    ensures { result ≡ length (filter is_update (command_of command.now ∷ [])) }
{
    match command {
        Command::Add(_) => 1,
        Command::Delete(_) => 1,
        Command::Search(_) => 0,
    }
}
