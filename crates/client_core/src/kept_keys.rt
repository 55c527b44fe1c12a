ghost use Rattle.std.specs.Prelude.{◌≡◌, ◌+◌, ◌-◌, ◌<◌, ◌^◌, ◌++◌, ◌∷◌, [], List, ℕ, IfOk, OnOk, length, slice_index_or};
ghost use Rattle.add_counters.specs.NewEntry.{entry_text};
ghost use Rattle.client_registry.specs.IdNumber.{id_number};
ghost use Rattle.client_registry.specs.Registered.{facts, known_words};
ghost use Rattle.keyed_fn.specs.KeyedFn.{KeyedFn, keyed_fn};
ghost use Rattle.client_core.specs.Keys.{Keeps};
ghost use Rattle.client_core.specs.UpdateTexts.{next_entry_of, number_of};

use add_counters::{Entry, next_entry};
use client_registry::{DocId, Registry};
use keyed_fn::Keyed;
use revocation_ids::Numbers;
use std::alloc::{AllocError, Global};
use std::collections::HashMap;
use std::marker::Model;
use word_keys::{PlusKeys, PreparedMaster, RevocationKey};

/// The keys of words that were derived so far, by the word's number: each key is derived and prepared when it is first
/// needed, and kept. A prepared key has its 32 bytes and both states of the hash after them.
#[derive(Drop)]
pub(crate) struct KeptKeys {
    pub(crate) plus: HashMap<u32, PlusKeys>,
    pub(crate) revocations: HashMap<u32, RevocationKey>,
}

impl Model for KeptKeys {
    ghost use Rattle.client_core.specs.Keys.{WordKeys};

    ghost Value = { WordKeys };

    ghost view = { λ k. record { plus = k.plus.entries; revocations = k.revocations.entries } };
}

impl KeptKeys {
    /// None yet. It takes no memory.
    pub(crate) fn new(alloc: Global) -> KeptKeys
        ensures { (f : KeyedFn) (master : List ℕ) (words : List (List ℕ)) → Keeps f master words result }
    {
        KeptKeys {
            plus: HashMap::new(alloc),
            revocations: HashMap::new(alloc),
        }
    }

    /// The entry of the next addition of the word of this number, which isn't at its last counter.
    pub(crate) fn entry<K: Keyed>(
        &mut self,
        master: &PreparedMaster<'_, K>,
        registry: &Registry,
        number: u32,
        id: DocId,
    ) -> Result<Entry, AllocError>
        requires within { number < length (known_words registry.now) }
        requires counter { (facts registry.now).counter (slice_index_or (known_words registry.now) number []) < 2 ^ 32 - 1 }
        ensures keeps { Keeps (keyed_fn K.prf K.pad) master.now (known_words registry.now) self.old → Keeps (keyed_fn K.prf K.pad) master.now (known_words registry.now) self.new }
        ensures entry { Keeps (keyed_fn K.prf K.pad) master.now (known_words registry.now) self.old → IfOk result (λ entry. entry_text entry ≡ next_entry_of (keyed_fn K.prf K.pad) master.now (facts registry.now) (id_number id) (slice_index_or (known_words registry.now) number [])) }
    {
        let counter = registry.counter_at(number as usize);
        if let Some(keys) = self.plus.get(&number) {
            return Ok(next_entry(master.keyed(), keys, counter, id).unwrap());
        }
        let keys = master.plus_keys(registry.word(number as usize));
        let entry = next_entry(master.keyed(), &keys, counter, id).unwrap();
        self.plus.insert(number, keys)?;
        Ok(entry)
    }

    /// Appends the identifier's revocation number under the word of this number.
    pub(crate) fn push_number<K: Keyed>(
        &mut self,
        master: &PreparedMaster<'_, K>,
        registry: &Registry,
        number: u32,
        id: DocId,
        numbers: &mut Numbers,
    ) -> Result<(), AllocError>
        requires within { number < length (known_words registry.now) }
        ensures keeps { Keeps (keyed_fn K.prf K.pad) master.now (known_words registry.now) self.old → Keeps (keyed_fn K.prf K.pad) master.now (known_words registry.now) self.new }
        ensures count { OnOk result (length numbers.new ≡ length numbers.old + 1) }
        ensures number { Keeps (keyed_fn K.prf K.pad) master.now (known_words registry.now) self.old → OnOk result (numbers.new ≡ numbers.old ++ number_of (keyed_fn K.prf K.pad) master.now (id_number id) (slice_index_or (known_words registry.now) number []) ∷ []) }
    {
        if let Some(key) = self.revocations.get(&number) {
            return numbers.push(master.keyed(), key, id);
        }
        let key = master.revocation_key(registry.word(number as usize));
        numbers.push(master.keyed(), &key, id)?;
        self.revocations.insert(number, key)?;
        Ok(())
    }
}
