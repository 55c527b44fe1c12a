ghost use Rattle.std.specs.Prelude.{◌≡◌, ◌≢◌, ◌∷◌, ◌++◌, [], ℕ, List, Err, IfOk, IsErr, IsOkUnless, None, OnErr, OnOk, length};
ghost use Rattle.client_records.specs.Openings.{IsBadRecord, Opens, OpensElsewhere, OpensNowhere};
ghost use Rattle.client_records.specs.Records.{IsRecordOf};
ghost use Rattle.client_records.specs.RecordView.{HasKeys, record_text};
ghost use Rattle.client_registry.specs.HashNumbers.{hash_numbers};
ghost use Rattle.client_registry.specs.Run.{Epochs};
ghost use Rattle.keyed_fn.specs.KeyedFn.{keyed_fn};
ghost use Rattle.keyed_fn.specs.KeyFormulas.{mark_of, plain_key};
ghost use Rattle.word_keys.specs.HashNumbers.{numbers_of_key};
ghost use Rattle.client_rebuild.specs.Rebuilds.{IsFinished, Rebuilds, Takes, TakesMemoryAfter, ends_otherwise, records_in};

use crate::fault::{RebuildFault, WrongKey};
use crate::last::Last;
use crate::rebuilt::Rebuilt;
use crate::taken_record::{take_first, take_later};
use client_records::{ReadFault, Record, read_record};
use client_registry::HashKeys;
use keyed_fn::Keyed;
use std::alloc::Global;
use std::mem;
use word_keys::MasterKey;

/// A client's history as far as its records were taken, whatever its keys: the first is that of a setup, the others are those of
/// updates and of renewals. A contract sees which records were taken by `Rebuilds` of specs/Rebuilds.antt.
#[derive(Drop)]
pub struct Rebuild {
    key: MasterKey,
    mark: [u8; 16],
    hash_keys: HashKeys,
    marks: Vec<[u8; 16]>,
    last: Option<Last>,
}

impl Rebuild {
    // Promise P119 (caller): A rebuild takes exactly the records that open to a history, and ends if and only if the last key is its own.
    //   clauses: mark, none; assumes: earlier calls; not: That no values of a command collide. Out of memory may come in place of each fault of a record, but only once a document
    //     of the record has begun, for a record that is accepted, or for that of a renewal.
    /// No record yet, under this master key. It takes no memory.
    pub fn new<K: Keyed>(alloc: Global, keyed: &K, key: MasterKey) -> Rebuild
        ensures key { result.key ≡ key }
        ensures mark { result.mark ≡ mark_of (keyed_fn K.prf K.pad) key }
        ensures hash_keys { hash_numbers result.hash_keys ≡ numbers_of_key (plain_key (keyed_fn K.prf K.pad) key 13) }
        ensures none { Rebuilds [] result }
    {
        let master = key.prepare(keyed);
        let mark = master.mark();
        let hash_keys = master.hash_keys();
        Rebuild {
            key,
            mark,
            hash_keys,
            marks: Vec::new(alloc),
            last: None,
        }
    }

    /// How many records were taken.
    fn records(&self) -> u64
        ensures { result ≡ records_in self.now.last }
    {
        match &self.last {
            Some(last) => u64::from(last.records()),
            None => 0,
        }
    }

    /// Takes what the first record says.
    fn take_first(&mut self, next: Record) -> Result<(), RebuildFault>
        ensures taken { (payloads : List (List ℕ)) (payload : List ℕ) → Rebuilds payloads self.old → self.old.last ≡ None → IsRecordOf payload (record_text next) → HasKeys (hash_numbers self.old.hash_keys) next → Takes (hash_numbers self.old.hash_keys) payloads payload self.new.marks.items self.new.last result }
        ensures key { self.new.key ≡ self.old.key }
        ensures mark { self.new.mark ≡ self.old.mark }
        ensures hash_keys { self.new.hash_keys ≡ self.old.hash_keys }
    {
        let (mark, first) = take_first(next)?;
        match self.marks.push(mark) {
            Ok(()) => {
                drop(mem::replace(&mut self.last, Some(first)));
                Ok(())
            }
            Err(_) => Err(RebuildFault::NoMemory),
        }
    }

    /// Takes what a record says.
    fn take_said(&mut self, alloc: Global, next: Record) -> Result<(), RebuildFault>
        ensures taken { (payloads : List (List ℕ)) (payload : List ℕ) → Rebuilds payloads self.old → IsRecordOf payload (record_text next) → HasKeys (hash_numbers self.old.hash_keys) next → Takes (hash_numbers self.old.hash_keys) payloads payload self.new.marks.items self.new.last result }
        ensures key { self.new.key ≡ self.old.key }
        ensures mark { self.new.mark ≡ self.old.mark }
        ensures hash_keys { self.new.hash_keys ≡ self.old.hash_keys }
    {
        match mem::replace(&mut self.last, None) {
            None => self.take_first(next),
            Some(last) => {
                let (last, taken) = take_later(alloc, self.hash_keys, &mut self.marks, last, next);
                drop(mem::replace(&mut self.last, Some(last)));
                taken
            }
        }
    }

    /// Takes the next record, all of these bytes.
    fn take_next(&mut self, alloc: Global, payload: &[u8]) -> Result<(), RebuildFault>
        ensures takes { (payloads : List (List ℕ)) → Rebuilds payloads self.old → Takes (hash_numbers self.old.hash_keys) payloads payload.now self.new.marks.items self.new.last result }
        ensures key { self.new.key ≡ self.old.key }
        ensures mark { self.new.mark ≡ self.old.mark }
        ensures hash_keys { self.new.hash_keys ≡ self.old.hash_keys }
    {
        match read_record(alloc, self.hash_keys, payload) {
            Ok(next) => self.take_said(alloc, next),
            Err(ReadFault::BadRecord) => Err(RebuildFault::BadRecord(self.records())),
            Err(ReadFault::NoMemory) => Err(RebuildFault::NoMemory),
        }
    }

    // Promise P119, also here; clauses: taken, before, bad, opens, nowhere, memory
    /// Takes the next record, all of these bytes.
    ///
    /// Errors: `BadRecord(number)` exactly where the bytes are no record that is accepted after those taken, whose count is the
    /// number; `NoMemory`, which may come in its place while a document of the record is read and for the record of a renewal,
    /// and else only for a record that is accepted. After an error the records taken are as before.
    pub fn take(&mut self, alloc: Global, payload: &[u8]) -> Result<(), RebuildFault>
        ensures key { self.new.key ≡ self.old.key }
        ensures mark { self.new.mark ≡ self.old.mark }
        ensures hash_keys { self.new.hash_keys ≡ self.old.hash_keys }

        // What was taken.
        ensures taken { (payloads : List (List ℕ)) → Rebuilds payloads self.old → OnOk result (Rebuilds (payloads ++ payload.now ∷ []) self.new) }
        ensures before { (payloads : List (List ℕ)) → Rebuilds payloads self.old → OnErr result (Rebuilds payloads self.new) }

        // Each fault where it comes, and nowhere else.
        ensures bad { (payloads : List (List ℕ)) (n : ℕ) → Rebuilds payloads self.old → result ≡ Err (RebuildFault.BadRecord n) → (n ≡ length payloads) × IsBadRecord (payloads ++ payload.now ∷ []) n }
        ensures opens { (payloads : List (List ℕ)) (first : List ℕ) (es : Epochs) → Rebuilds payloads self.old → Opens first (payloads ++ payload.now ∷ []) es → IsOkUnless result RebuildFault.NoMemory }
        ensures nowhere { (payloads : List (List ℕ)) → Rebuilds payloads self.old → OpensNowhere (payloads ++ payload.now ∷ []) → result ≢ Err RebuildFault.NoMemory → result ≡ Err (RebuildFault.BadRecord (length payloads)) }
        ensures memory { (payloads : List (List ℕ)) → Rebuilds payloads self.old → result ≡ Err RebuildFault.NoMemory → TakesMemoryAfter payloads payload.now }
    {
        self.take_next(alloc, payload)
    }

    // Promise P119, also here; clauses: finished, wrong, elsewhere
    /// What the records taken tell, under the key.
    ///
    /// Errors: `WrongKey` exactly where there is a record and the last epoch's key has another mark than this one.
    pub fn finish(self) -> Result<Rebuilt, WrongKey>
        ensures key { IfOk result (λ rebuilt. rebuilt.key ≡ self.key) }
        ensures hash_keys { IfOk result (λ rebuilt. rebuilt.hash_keys ≡ self.hash_keys) }
        ensures finished { (payloads : List (List ℕ)) → Rebuilds payloads self → IfOk result (IsFinished self.mark payloads) }
        ensures wrong { (payloads : List (List ℕ)) → Rebuilds payloads self → IsErr result → OpensElsewhere self.mark payloads }
        ensures elsewhere { (payloads : List (List ℕ)) → Rebuilds payloads self → OpensElsewhere self.mark payloads → IsErr result }
    {
        let Rebuild {
            key,
            mark,
            hash_keys,
            marks,
            last,
        } = self;
        if is_another(marks.as_slice(), &mark) {
            return Err(WrongKey);
        }
        Ok(Rebuilt {
            key,
            hash_keys,
            marks,
            last,
        })
    }
}

/// Whether there are marks, and the last one isn't this.
fn is_another(marks: &[[u8; 16]], mark: &[u8; 16]) -> bool
    ensures { result ≡ ends_otherwise marks.now mark.now }
{
    match marks.last() {
        Some(last) => last != mark,
        None => false,
    }
}
