ghost use Rattle.std.specs.Prelude.{◌≡◌, ◌<◌, ◌++◌, [], All, IfOk, List, OnOk, flat_map, is_some, length, map, unwrap_or, ℕ};
ghost use Rattle.client_registry.specs.Command.{Command as Meant};
ghost use Rattle.client_registry.specs.Epochs.{key_now};
ghost use Rattle.client_registry.specs.IdNumber.{id_number};
ghost use Rattle.client_registry.specs.Numbered.{words_by_number};
ghost use Rattle.client_registry.specs.Registered.{facts, known_words};
ghost use Rattle.client_registry.specs.Run.{Offsets};
ghost use Rattle.client_registry.specs.Setup.{Setup};
ghost use Rattle.client_registry.specs.WordBytes.{word_bytes};
ghost use Rattle.def_duel.specs.Choices.{grown};
ghost use Rattle.def_leakage.specs.DrawnValues.{draw, drawings_by};
ghost use Rattle.def_leakage.specs.Firsts.{first_search, number_origin};
ghost use Rattle.keyed_fn.specs.KeyedFn.{keyed_fn};
ghost use Rattle.leakage_frames.specs.Views.{draw_view};
ghost use Rattle.leakage_history.specs.Commands.{command_of};
ghost use Rattle.leakage_history.specs.HashedEpochs.{epochs_in};
ghost use Rattle.leakage_model.specs.TrailFacts.{Follows};
ghost use Rattle.sse_model.specs.Names.{table};
ghost use Rattle.sse_game.specs.Drawn.{added_piece, deleted_piece, entry_drawn, searched_piece};
ghost use Rattle.sse_game.specs.Passing.{DrawsLast};
ghost use Rattle.sse_game.specs.Side.{IsSide, history_at};
ghost use Rattle.sse_game.specs.Views.{choice_view};

use crate::choice::Choice;
use crate::shown::copied;
use crate::side::Side;
use client_registry::{DocId, Registry, Word};
use keyed_fn::Keyed;
use leakage_frames::Draw;
use leakage_history::{Command, Epochs};
use leakage_model::Trail;
use sse_frames::Items;
use std::alloc::{AllocError, Global};
use word_keys::{MasterKey, PreparedMaster, seal};

/// The new entry of a word's next addition, which has this identifier.
fn entry_draw<K: Keyed>(
    alloc: Global,
    master: &PreparedMaster<'_, K>,
    registry: &Registry,
    word: &Word,
    id: DocId,
) -> Result<Draw, AllocError>
    ensures { IfOk result (λ own. draw_view own ≡ entry_drawn (keyed_fn K.prf K.pad) master.now ((facts registry.now).counter (word_bytes word.now)) (id_number id) (word_bytes word.now)) }
{
    let counter = registry.counter(word);
    let keys = master.plus_keys(word);
    let label = keys.label(master.keyed(), counter);
    let mut sealed = id.get().to_be_bytes();
    seal(keys.slot(counter), master.keyed(), &mut sealed);
    let cell = copied(alloc, &sealed)?;
    Ok(Draw::Entry { label, cell })
}

/// Appends the new entry of a word where its pair with the identifier isn't listed.
fn push_if_fresh<K: Keyed>(
    alloc: Global,
    drawn: &mut Items<Draw>,
    master: &PreparedMaster<'_, K>,
    registry: &Registry,
    word: &Word,
    id: DocId,
) -> Result<(), AllocError>
    ensures { OnOk result (map draw_view drawn.new ≡ map draw_view drawn.old ++ added_piece (keyed_fn K.prf K.pad) master.now (facts registry.now) (id_number id) (word_bytes word.now)) }
{
    if !registry.is_listed(word, id) {
        drawn.push(entry_draw(alloc, master, registry, word, id)?)?;
    }
    Ok(())
}

/// Appends the new entries of an addition of this identifier and these words.
fn push_addition<K: Keyed>(
    alloc: Global,
    drawn: &mut Items<Draw>,
    master: &PreparedMaster<'_, K>,
    registry: &Registry,
    of: &[Word],
    id: DocId,
) -> Result<(), AllocError>
    ensures { OnOk result (map draw_view drawn.new ≡ map draw_view drawn.old ++ flat_map (added_piece (keyed_fn K.prf K.pad) master.now (facts registry.now) (id_number id)) (map word_bytes of.now)) }
{
    for word in of {
        push_if_fresh(alloc, drawn, master, registry, word, id)?;
    }
    Ok(())
}

/// Appends the revocation number of a word and an identifier where it wasn't sent.
fn push_if_unsent<K: Keyed>(
    drawn: &mut Items<Draw>,
    master: &PreparedMaster<'_, K>,
    trail: &Trail,
    word: &Word,
    id: DocId,
) -> Result<(), AllocError>
    ensures { OnOk result ((o : Offsets) (s : Setup) (past : List Meant) → Follows trail.now o s past → map draw_view drawn.new ≡ map draw_view drawn.old ++ deleted_piece (keyed_fn K.prf K.pad) master.now (λ w. is_some (number_origin o s past w (id_number id))) (id_number id) (word_bytes word.now)) }
{
    if trail.number_origin(word, id).is_none() {
        let key = master.revocation_key(word);
        drawn.push(Draw::Number(key.number(master.keyed(), id.get())))?;
    }
    Ok(())
}

/// Appends the numbers that a deletion of this identifier draws, whose document has the words of these numbers.
fn push_deletion<K: Keyed>(
    drawn: &mut Items<Draw>,
    master: &PreparedMaster<'_, K>,
    trail: &Trail,
    registry: &Registry,
    numbers: &[u32],
    id: DocId,
) -> Result<(), AllocError>
    requires { All (λ n. n < length (known_words registry.now)) numbers.now }
    ensures { OnOk result ((o : Offsets) (s : Setup) (past : List Meant) → Follows trail.now o s past → map draw_view drawn.new ≡ map draw_view drawn.old ++ flat_map (deleted_piece (keyed_fn K.prf K.pad) master.now (λ w. is_some (number_origin o s past w (id_number id))) (id_number id)) (words_by_number (known_words registry.now) numbers.now)) }
{
    for number in numbers {
        push_if_unsent(drawn, master, trail, registry.word(*number as usize), id)?;
    }
    Ok(())
}

/// The same of the live document of this identifier, and nothing where there is none.
fn push_live<K: Keyed>(
    drawn: &mut Items<Draw>,
    master: &PreparedMaster<'_, K>,
    trail: &Trail,
    registry: &Registry,
    id: DocId,
) -> Result<(), AllocError>
    ensures { OnOk result ((o : Offsets) (s : Setup) (past : List Meant) → Follows trail.now o s past → map draw_view drawn.new ≡ map draw_view drawn.old ++ flat_map (deleted_piece (keyed_fn K.prf K.pad) master.now (λ w. is_some (number_origin o s past w (id_number id))) (id_number id)) (unwrap_or ((facts registry.now).live (id_number id)) [])) }
{
    match registry.get(id) {
        Some(doc) => push_deletion(drawn, master, trail, registry, doc.numbers, id),
        None => Ok(()),
    }
}

/// Appends the token of a word that wasn't searched.
fn push_search<K: Keyed>(
    alloc: Global,
    drawn: &mut Items<Draw>,
    master: &PreparedMaster<'_, K>,
    trail: &Trail,
    word: &Word,
) -> Result<(), AllocError>
    ensures { OnOk result ((o : Offsets) (s : Setup) (past : List Meant) → Follows trail.now o s past → map draw_view drawn.new ≡ map draw_view drawn.old ++ searched_piece (keyed_fn K.prf K.pad) master.now (is_some (first_search o past (word_bytes word.now))) (word_bytes word.now)) }
{
    if trail.first_search(word).is_none() {
        let token = copied(alloc, &master.token(word).to_bytes())?;
        drawn.push(Draw::Token(token))?;
    }
    Ok(())
}

/// Appends what the next command draws in an epoch with this key.
fn push_command<K: Keyed>(
    alloc: Global,
    drawn: &mut Items<Draw>,
    master: &PreparedMaster<'_, K>,
    trail: &Trail,
    command: &Command,
) -> Result<(), AllocError>
    ensures { OnOk result ((o : Offsets) (s : Setup) (past : List Meant) (ranks : List ℕ) → Follows trail.now o s past → map draw_view drawn.new ≡ map draw_view drawn.old ++ map (draw (table (keyed_fn K.prf K.pad) s.shape (λ epoch. master.now)) ranks) (drawings_by o.epoch s past (command_of command.now))) }
{
    match command {
        Command::Add(doc) => {
            push_addition(
                alloc,
                drawn,
                master,
                trail.registry(),
                doc.words(),
                doc.id(),
            )
        }
        Command::Delete(id) => push_live(drawn, master, trail, trail.registry(), *id),
        Command::Search(word) => push_search(alloc, drawn, master, trail, word),
    }
}

/// What the next command draws in an epoch with this key.
pub(crate) fn command_draws<K: Keyed>(
    alloc: Global,
    master: &PreparedMaster<'_, K>,
    trail: &Trail,
    command: &Command,
) -> Result<Items<Draw>, AllocError>
    ensures { IfOk result (λ drawn. (o : Offsets) (s : Setup) (past : List Meant) (ranks : List ℕ) → Follows trail.now o s past → map draw_view drawn ≡ map (draw (table (keyed_fn K.prf K.pad) s.shape (λ epoch. master.now)) ranks) (drawings_by o.epoch s past (command_of command.now))) }
{
    let mut drawn = Items::new(alloc);
    push_command(alloc, &mut drawn, master, trail, command)?;
    Ok(drawn)
}

/// The key of the last epoch of a history, prepared. The first epoch has this key.
fn last_key<'a, K: Keyed>(keyed: &'a K, key: &MasterKey, epochs: &Epochs) -> PreparedMaster<'a, K>
    ensures { result ≡ key_now key.now (epochs_in epochs.now) }
{
    let number = epochs.len() - 1;
    if number == 0 {
        return key.prepare(keyed);
    }
    let own = MasterKey::new(*epochs.renewal_key(number - 1));
    own.prepare(keyed)
}

/// What a command draws that a history takes after its setup; not known of a renewal. The first epoch has this key.
pub(crate) fn next_draws<K: Keyed>(
    alloc: Global,
    keyed: &K,
    key: &MasterKey,
    side: &Side,
    choice: &Choice,
) -> Result<Option<Items<Draw>>, AllocError>
    requires { IsSide side.now }
    ensures { IfOk result (λ drawn. DrawsLast (keyed_fn K.prf K.pad) key.now (history_at side.now) (grown (history_at side.now) (choice_view choice.now)) drawn) }
{
    match choice {
        Choice::Do(command) => {
            let master = last_key(keyed, key, &side.epochs);
            let own = command_draws(alloc, &master, &side.trail, command)?;
            Ok(Some(own))
        }
        Choice::SetUp(_) => Ok(None),
        Choice::Renew(_) => Ok(None),
    }
}
