ghost use Rattle.std.specs.Prelude.{◌≡◌, ◌≢◌, ◌<◌, ◌≤◌, ◌^◌, ◌++◌, ◌∷◌, [], All, IfOk, IsNone, IsOk, IsOkUnless, IsSome, List, None, OnErr, OnOk, Some, bytes_eq, length, map, true};
ghost use Rattle.std.specs.List.{list_any};
ghost use Rattle.client_registry.specs.Command.{Command as Meant, Add as adds, Delete as deletes};
ghost use Rattle.client_registry.specs.Facts.{facts_after, has_counters};
ghost use Rattle.client_registry.specs.IdNumber.{id_number};
ghost use Rattle.client_registry.specs.Numbered.{words_by_number};
ghost use Rattle.client_registry.specs.Registered.{facts, kept_of, known_words, HasRoom, KeepsNumbers, Kept, Represents};
ghost use Rattle.client_registry.specs.Restarted.{restarted};
ghost use Rattle.client_registry.specs.Setup.{Setup};
ghost use Rattle.client_registry.specs.WordBytes.{word_bytes};

use crate::doc_id::DocId;
use crate::document::Doc;
use crate::faults::{AddFault, UnknownDocument};
use crate::limits::MAX_WORDS;
use crate::listed::{Listed, append, forget_dead};
use crate::registry::Registry;
use crate::word::Word;
use crate::word_table::{clear_counts, count_new, number_all};
use arrayvec::ArrayVec;
use std::alloc::AllocError;

/// The words that most documents have at most.
const FEW: usize = 256;

impl Registry {
    // Promise P59, also here; clauses: keys
    // Promise P61, also here; clauses: room, facts
    /// Takes the memory of a following [`Registry::add`] of this document, and numbers its words.
    ///
    /// What is live, listed and counted stays as it is, also after an error.
    pub fn reserve(&mut self, doc: &Doc) -> Result<(), AllocError>
        ensures facts { facts self.new ≡ facts self.old }
        ensures words { KeepsNumbers self.old self.new }
        ensures keys { self.new.keys ≡ self.old.keys }
        ensures room { OnOk result (HasRoom self.new doc.now) }
        ensures succeeds { HasRoom self.old doc.now → IsOk result }
    {
        prove!(doc.words().len() <= MAX_WORDS);
        let mut numbers: ArrayVec<u32, MAX_WORDS> = ArrayVec::new();
        self.reserve_for(doc, &mut numbers)
    }

    // Promise P59, also here; clauses: keys
    // Promise P62 (caller): A document's words are numbered once when memory is reserved; adding by these numbers then takes no memory.
    //   clauses: numbers, within, room; assumes: earlier calls
    /// As [`Registry::reserve`], and gives the number of each of the document's words, in their order, so that a following
    /// [`Registry::add_numbered`] looks no word up.
    pub fn reserve_numbered(&mut self, doc: &Doc) -> Result<Vec<u32>, AllocError>
        ensures facts { facts self.new ≡ facts self.old }
        ensures words { KeepsNumbers self.old self.new }
        ensures keys { self.new.keys ≡ self.old.keys }
        ensures room { OnOk result (HasRoom self.new doc.now) }
        ensures numbers { IfOk result (λ numbers. words_by_number (known_words self.new) numbers.items ≡ doc.now.words) }
        ensures within { IfOk result (λ numbers. All (λ n. n < length (known_words self.new)) numbers.items) }
    {
        if doc.words().len() <= FEW {
            self.reserve_at_most::<FEW>(doc)
        } else {
            self.reserve_at_most::<MAX_WORDS>(doc)
        }
    }

    // Promise P59, also here; clauses: keys
    // Promise P60, also here; clauses: ok, history, words
    // Promise P61 (caller): An addition is refused if and only if its identifier is live, a deletion if and only if it isn't; a refusal changes nothing.
    //   clauses: already, accepted, room, err; assumes: earlier calls; not: An addition whose memory wasn't reserved may run out of memory; a deletion takes none.
    /// Adds a document. None of its words whose pair would be new is at its last counter.
    ///
    /// Errors: `AlreadyLive(id)` exactly where a document of this identifier is live; else `NoMemory` where there is no
    /// memory, which never comes after [`Registry::reserve`] for this document. After an error what is live, listed and
    /// counted is as before, and `doc` is dropped.
    pub fn add(&mut self, doc: Doc) -> Result<(), AddFault>
        requires { has_counters (facts self.old) doc ≡ true }
        ensures ok { OnOk result (facts self.new ≡ facts_after (facts self.old) (adds doc)) }
        ensures err { OnErr result (facts self.new ≡ facts self.old) }
        ensures words { KeepsNumbers self.old self.new }
        ensures keys { self.new.keys ≡ self.old.keys }
        ensures already { IsSome ((facts self.old).live doc.id) → result ≡ Err (AddFault.AlreadyLive doc.id) }
        ensures accepted { IsNone ((facts self.old).live doc.id) → IsOkUnless result AddFault.NoMemory }
        ensures room { HasRoom self.old doc → result ≢ Err AddFault.NoMemory }
        ensures history { (s : Setup) (past : List Meant) → Represents self.old s past → OnOk result (Represents self.new s (past ++ adds doc ∷ [])) }
    {
        if self.is_live(doc.id()) {
            return Err(AddFault::AlreadyLive(doc.id().get()));
        }
        prove!(doc.words().len() <= MAX_WORDS);
        let mut numbers: ArrayVec<u32, MAX_WORDS> = ArrayVec::new();
        self.reserve_for(&doc, &mut numbers)?;
        self.add_numbered(&doc, numbers.as_slice());
        Ok(())
    }

    // Promise P59, also here; clauses: keys
    // Promise P62, also here; clauses: facts, history
    /// Adds a document whose identifier isn't live by the numbers of its words, after [`Registry::reserve_numbered`] or
    /// with other room. None of its words whose pair would be new is at its last counter. It takes no memory.
    pub fn add_numbered(&mut self, doc: &Doc, numbers: &[u32])
        requires room { HasRoom self.old doc.now }
        requires dead { (facts self.old).live doc.now.id ≡ None }
        requires counters { has_counters (facts self.old) doc.now ≡ true }
        requires numbers { words_by_number (known_words self.old) numbers.now ≡ doc.now.words }
        requires within { All (λ n. n < length (known_words self.old)) numbers.now }
        ensures facts { facts self.new ≡ facts_after (facts self.old) (adds doc.now) }
        ensures words { known_words self.new ≡ known_words self.old }
        ensures keys { self.new.keys ≡ self.old.keys }
        ensures history { (s : Setup) (past : List Meant) → Represents self.old s past → Represents self.new s (past ++ adds doc.now ∷ []) }
    {
        prove!(doc.words().len() == numbers.len());
        append(&mut self.next, numbers);
        let place = self.documents.get_index_of(&doc.id()).unwrap();
        let listed = &mut self.documents[place];
        count_new(&mut self.words, &self.next, &listed.numbers);
        listed.revive(&mut self.next, &mut self.again);
        self.most = self.most.saturating_add(1);
    }

    // Promise P59, also here; clauses: keys
    // Promise P60, also here; clauses: ok, history, words
    // Promise P61, also here; clauses: unknown, accepted, err
    /// Deletes the document of this identifier. Its pairs stay listed. It takes no memory.
    ///
    /// Error: `UnknownDocument(id)` exactly where no document of this identifier is live; nothing has changed then.
    pub fn delete(&mut self, id: DocId) -> Result<(), UnknownDocument>
        ensures ok { OnOk result (facts self.new ≡ facts_after (facts self.old) (deletes (id_number id))) }
        ensures err { OnErr result (self.new ≡ self.old) }
        ensures words { known_words self.new ≡ known_words self.old }
        ensures keys { self.new.keys ≡ self.old.keys }
        ensures unknown { IsNone ((facts self.old).live (id_number id)) → result ≡ Err (record { 0 = id_number id }) }
        ensures accepted { IsSome ((facts self.old).live (id_number id)) → IsOk result }
        ensures history { (s : Setup) (past : List Meant) → Represents self.old s past → OnOk result (Represents self.new s (past ++ deletes (id_number id) ∷ [])) }
    {
        if !self.is_live(id) {
            return Err(UnknownDocument(id.get()));
        }
        let place = self.documents.get_index_of(&id).unwrap();
        self.documents[place].retire();
        Ok(())
    }

    /// Begins anew with what is live: the live pairs are the listed ones, and no addition was made yet. Each word keeps its
    /// number. It takes no memory.
    pub fn restart(&mut self)
        ensures { self.new ≡ restarted self.old }
    {
        clear_counts(&mut self.words);
        forget_dead(&mut self.documents);
        self.most = 0;
    }

    /// [`Registry::reserve_numbered`] of a document of at most `N` words, by so many numbers on the stack.
    fn reserve_at_most<const N: usize>(&mut self, doc: &Doc) -> Result<Vec<u32>, AllocError>
        requires most { length doc.now.words ≤ N }
        requires small { N ≤ MAX_WORDS }
        ensures facts { facts self.new ≡ facts self.old }
        ensures words { KeepsNumbers self.old self.new }
        ensures keys { self.new.keys ≡ self.old.keys }
        ensures room { OnOk result (HasRoom self.new doc.now) }
        ensures numbers { IfOk result (λ numbers. words_by_number (known_words self.new) numbers.items ≡ doc.now.words) }
        ensures within { IfOk result (λ numbers. All (λ n. n < length (known_words self.new)) numbers.items) }
    {
        let mut numbers: ArrayVec<u32, N> = ArrayVec::new();
        self.reserve_for(doc, &mut numbers)?;
        let mut copy = Vec::new(*self.words.allocator());
        copy.extend_from_slice(numbers.as_slice())?;
        Ok(copy)
    }

    /// Takes the memory of an addition of this document, and appends the number of each of its words.
    fn reserve_for<const N: usize>(
        &mut self,
        doc: &Doc,
        numbers: &mut ArrayVec<u32, N>,
    ) -> Result<(), AllocError>
        requires most { length doc.now.words ≤ N }
        requires small { N ≤ MAX_WORDS }
        requires empty { numbers.old.items ≡ [] }
        ensures facts { facts self.new ≡ facts self.old }
        ensures words { KeepsNumbers self.old self.new }
        ensures keys { self.new.keys ≡ self.old.keys }
        ensures room { OnOk result (HasRoom self.new doc.now) }
        ensures numbers { OnOk result (words_by_number (known_words self.new) numbers.new.items ≡ doc.now.words) }
        ensures within { OnOk result (All (λ n. n < length (known_words self.new)) numbers.new.items) }
        ensures succeeds { HasRoom self.old doc.now → IsOk result }
    {
        self.number_words(doc.words(), numbers)?;
        let kept = self.make_entry(doc.id())?;
        self.make_room(doc.words().len() + kept)
    }

    /// Gives each of these words a number, and appends it.
    fn number_words<const N: usize>(
        &mut self,
        words: &[Word],
        numbers: &mut ArrayVec<u32, N>,
    ) -> Result<(), AllocError>
        requires most { length words.now ≤ N }
        requires small { N ≤ MAX_WORDS }
        requires empty { numbers.old.items ≡ [] }
        ensures facts { facts self.new ≡ facts self.old }
        ensures words { KeepsNumbers self.old self.new }
        ensures keys { self.new.keys ≡ self.old.keys }
        ensures kept { self.new.kept ≡ self.old.kept }
        ensures room { self.new.room ≡ self.old.room }
        ensures numbered { OnOk result (All (λ word. list_any (bytes_eq word) (known_words self.new) ≡ true) (map word_bytes words.now)) }
        ensures numbers { OnOk result (words_by_number (known_words self.new) numbers.new.items ≡ map word_bytes words.now) }
        ensures within { OnOk result (All (λ n. n < length (known_words self.new)) numbers.new.items) }
        ensures succeeds { All (λ word. list_any (bytes_eq word) (known_words self.old) ≡ true) (map word_bytes words.now) → IsOk result }
    {
        number_all(&mut self.words, words, numbers)
    }

    /// Makes an entry for an identifier that has none, and says how many numbers are kept of it.
    fn make_entry(&mut self, id: DocId) -> Result<usize, AllocError>
        ensures facts { facts self.new ≡ facts self.old }
        ensures counts { self.new.counts ≡ self.old.counts }
        ensures keys { self.new.keys ≡ self.old.keys }
        ensures room { self.new.room ≡ self.old.room }
        ensures entry { IfOk result (λ n. (k : Kept) × (kept_of self.new (id_number id) ≡ Some k) × (length k.numbers ≡ n)) }
        ensures small { IfOk result (λ n. n < 2 ^ 63) }
        ensures stays { IsSome (kept_of self.old (id_number id)) → kept_of self.new (id_number id) ≡ kept_of self.old (id_number id) }
        ensures succeeds { IsSome (kept_of self.old (id_number id)) → IsOk result }
    {
        if let Some(listed) = self.documents.get(&id) {
            return Ok(listed.numbers.len());
        }
        let numbers = Vec::new(*self.words.allocator());
        self.documents.insert(
            id,
            Listed {
                numbers,
                live: None,
            },
        )?;
        Ok(0)
    }

    /// Makes room for so many numbers.
    fn make_room(&mut self, count: usize) -> Result<(), AllocError>
        ensures counts { self.new.counts ≡ self.old.counts }
        ensures kept { self.new.kept ≡ self.old.kept }
        ensures keys { self.new.keys ≡ self.old.keys }
        ensures room { OnOk result (count ≤ self.new.room) }
        ensures succeeds { count ≤ self.old.room → IsOk result }
    {
        self.next.reserve_exact(count)?;
        self.again.reserve_exact(count)?;
        Ok(())
    }
}
