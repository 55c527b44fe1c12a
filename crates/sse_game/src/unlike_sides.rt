use crate::choice::{Choice, Pair};
use crate::chooser::Chooser;
use crate::duel::play_duel;
use crate::fault::DuelFault;
use crate::played::pair_by;
use client_registry::{Doc, DocId, HashKeys, Word};
use keyed_fn::Real;
use leakage_history::Command;
use script_game::GameChoice;
use sse_frames::Items;
use std::alloc::{AllocError, Global};
use std::test::Fail;
use word_keys::MasterKey;

/// A chooser that gives these pairs, the last one first. It tells nothing of its turns.
#[derive(Drop)]
struct GivenPairs {
    pairs: Vec<Pair>,
}

impl Chooser for GivenPairs {
    ghost tells = { λ chooser told. ⊥ };

    fn next(
        &mut self,
        _alloc: Global,
        _seen: &Items<Items<u8>>,
    ) -> Result<Option<Pair>, AllocError> {
        Ok(self.pairs.pop())
    }
}

/// The addition of the document 9 with these words.
fn addition(alloc: Global, words: Vec<Word>) -> Result<Choice, AllocError> {
    let id = DocId::new(9).unwrap();
    match Doc::new(alloc, id, words) {
        Ok(doc) => Ok(Choice::Do(Command::Add(doc))),
        Err(_) => Err(AllocError),
    }
}

/// The word `l`.
fn left_word() -> Result<Word, AllocError> {
    match Word::read(b"l") {
        Ok(word) => Ok(word),
        Err(_) => Err(AllocError),
    }
}

/// `add 9 l` on the left, and `add 9` on the right.
fn additions(alloc: Global) -> Result<Pair, AllocError> {
    let left = addition(alloc, vec![in alloc; left_word()?]?)?;
    match addition(alloc, Vec::new(alloc)) {
        Ok(right) => Ok(Pair { left, right }),
        Err(error) => {
            drop(left);
            Err(error)
        }
    }
}

/// The setups of the rule, and then those additions.
fn chooser(alloc: Global, keys: HashKeys) -> Result<GivenPairs, AllocError> {
    let mut pairs = Vec::with_capacity(alloc, 2)?;
    pairs.push_reserved(additions(alloc)?);
    pairs.push_reserved(pair_by(alloc, keys, GameChoice::SetUp)?);
    Ok(GivenPairs { pairs })
}

/// The number of the two commands that leak something else, if that ends the duel.
fn unlike_at(alloc: Global) -> Result<Option<u32>, AllocError> {
    let key = MasterKey::new([7; 32]);
    let keys = key.prepare(&Real).hash_keys();
    let mut chooser = chooser(alloc, keys)?;
    let played = play_duel(alloc, &Real, &key, &mut chooser, 3);
    drop(chooser);
    match played {
        Ok(duel) => {
            drop(duel);
            Ok(None)
        }
        Err(DuelFault::LeaksDiffer(number)) => Ok(Some(number)),
        Err(_) => Ok(None),
    }
}

/// The setups, of number 0, leak the same. The additions, of number 1, don't: the left one has a word more.
#[test]
fn a_word_more_on_one_side(rt: HostRuntime) -> Result<(), Fail> {
    let number = unlike_at(rt.alloc())?;
    assert_eq!(rt; number, Some(1));
    Ok(())
}
