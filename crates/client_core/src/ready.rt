ghost use Rattle.std.specs.Prelude.{◌≡◌, ◌≢◌, ◌+◌, [], Err, IfOk, IsSome, List, ℕ, None, option_map, true, unwrap_or};
ghost use Rattle.std.specs.Result.{result_err};
ghost use Rattle.client_registry.specs.Acceptance.{frames_needed, size_refusal};
ghost use Rattle.client_registry.specs.DocumentRule.{IsDocument};
ghost use Rattle.client_registry.specs.Facts.{has_counters};
ghost use Rattle.client_registry.specs.IdNumber.{id_number};
ghost use Rattle.client_registry.specs.Registered.{HasRoom, facts, known_words};
ghost use Rattle.client_registry.specs.Run.{Offsets};
ghost use Rattle.client_registry.specs.Setup.{Setup};
ghost use Rattle.client_registry.specs.WordBytes.{word_bytes};
ghost use Rattle.keyed_fn.specs.KeyedFn.{KeyedFn, keyed_fn};
ghost use Rattle.keyed_fn.specs.KeyFormulas.{token_of};
ghost use Rattle.sse_frames.specs.Frames.{IsFrame, IsNumber, SearchFrame, frame_bytes};
ghost use Rattle.client_core.specs.Keys.{Keeps};
ghost use Rattle.client_core.specs.StandsFor.{AreNumbersOf, IsPastOf, StandsFor, full_refusal, refusal_to_add, refusal_to_delete};
ghost use Rattle.client_core.specs.UpdateFaults.{clash_fault};
ghost use Rattle.client_core.specs.UpdateTexts.{add_collision, add_text, delete_collision, delete_text};

use crate::client::Client;
use crate::command_fault::{CommandFault, HistoryFull, frames_after};
use crate::kept_keys::KeptKeys;
use crate::update_plans::{add_update, delete_update};
use client_registry::{Doc, DocId, Docs, MAX_WORDS, Registry, Word};
use client_renewal::Past;
use keyed_fn::Keyed;
use sse_frames::search_frame;
use std::alloc::Global;
use std::marker::Model;
use word_keys::PreparedMaster;

/// The state of a client with nothing that the server may lack: the registry of its documents, the keys of words that it
/// derived, how many update frames were planned, which is the number of the next one, and what a renewal of its key takes
/// over.
#[derive(Drop)]
pub struct Ready {
    pub(crate) registry: Registry,
    pub(crate) keys: KeptKeys,
    pub(crate) frames: u32,
    pub(crate) past: Past,
}

impl Model for Ready {
    ghost use Rattle.client_core.specs.States.{ReadyState};

    ghost Value = { ReadyState };

    ghost view = { λ r. record { registry = r.registry; keys = r.keys; frames = r.frames; past = r.past } };
}

impl Client<Ready> {
    // Promise P48 (caller): A search sends the frame with its word's token, as the key formulas give it.
    //   clauses: ensures; assumes: own keys
    /// The Search frame of a word: four length bytes, the kind byte 08 and the token of 160 bytes. `master` is the
    /// client's key, prepared once for all searches. It takes no memory.
    pub fn search_frame<K: Keyed>(&self, master: &PreparedMaster<'_, K>, word: &Word) -> [u8; 165]
        requires prepared { master.now ≡ self.now.key }
        ensures { result ≡ frame_bytes (SearchFrame (token_of (keyed_fn K.prf K.pad) self.now.key (word_bytes word.now))) }
    {
        search_frame(&master.token(word).to_bytes())
    }
}

impl Ready {
    /// What a client keeps after an accepted setup of these documents, with so many update frames in all and these parameters. It
    /// takes no memory.
    pub(crate) fn begun(alloc: Global, docs: Docs, frames: u32, past: Past) -> Ready
        ensures hash_keys { result.registry.keys ≡ docs.keys }
        ensures past { result.past ≡ past }
        ensures stands { (f : KeyedFn) (keys : ℕ → List ℕ) (o : Offsets) (s : Setup) → s.documents ≡ docs.documents → IsPastOf past (record { setup = s; later = [] }) → size_refusal s ≡ None → frames ≡ o.frame + frames_needed s → StandsFor f keys o (record { setup = s; later = [] }) result }
    {
        Ready {
            registry: Registry::from_docs(docs),
            keys: KeptKeys::new(alloc),
            frames,
            past,
        }
    }

    /// What a client keeps of this registry, with no key derived yet, where so many update frames were planned and a renewal takes
    /// over this. It takes no memory.
    pub(crate) fn of_registry(alloc: Global, registry: Registry, frames: u32, past: Past) -> Ready
        ensures registry { result.registry ≡ registry }
        ensures frames { result.frames ≡ frames }
        ensures past { result.past ≡ past }
        ensures keeps { (f : KeyedFn) (master : List ℕ) → Keeps f master (known_words result.registry) result.keys }
    {
        Ready {
            registry,
            keys: KeptKeys::new(alloc),
            frames,
            past,
        }
    }

    /// The frame of an addition that nothing refuses, its memory taken, and the numbers of the document's words. Errors: as
    /// `add_update`.
    pub(crate) fn addition<K: Keyed>(
        &mut self,
        alloc: Global,
        master: &PreparedMaster<'_, K>,
        doc: &Doc,
    ) -> Result<(Vec<u8>, Vec<u32>), CommandFault>
        requires counters { has_counters (facts self.old.registry) doc.now ≡ true }
        requires number { IsNumber self.old.frames }
        ensures facts { facts self.new.registry ≡ facts self.old.registry }
        ensures hash_keys { self.new.registry.keys ≡ self.old.registry.keys }
        ensures frames { self.new.frames ≡ self.old.frames }
        ensures past { self.new.past ≡ self.old.past }
        ensures keeps { Keeps (keyed_fn K.prf K.pad) master.now (known_words self.old.registry) self.old.keys → Keeps (keyed_fn K.prf K.pad) master.now (known_words self.new.registry) self.new.keys }
        ensures fault { Keeps (keyed_fn K.prf K.pad) master.now (known_words self.old.registry) self.old.keys → result ≢ Err CommandFault.NoMemory → result_err result ≡ option_map clash_fault (add_collision (keyed_fn K.prf K.pad) master.now (facts self.old.registry) doc.now) }
        ensures bytes { Keeps (keyed_fn K.prf K.pad) master.now (known_words self.old.registry) self.old.keys → IfOk result (λ made. made.0.items ≡ frame_bytes (add_text (keyed_fn K.prf K.pad) master.now (facts self.old.registry) self.old.frames doc.now)) }
        ensures frame { IfOk result (λ made. IsFrame made.0.items) }
        ensures document { IfOk result (λ made. IsDocument doc.now) }
        ensures room { IfOk result (λ made. HasRoom self.new.registry doc.now) }
        ensures numbers { IfOk result (λ made. AreNumbersOf self.new.registry doc.now.words made.1.items) }
    {
        let words = doc.words();
        prove!(words.len() <= MAX_WORDS);
        let numbers = self.registry.reserve_numbered(doc)?;
        let frame = add_update(
            alloc,
            master,
            &self.registry,
            &mut self.keys,
            self.frames,
            doc,
            numbers.as_slice(),
        )?;
        Ok((frame, numbers))
    }

    /// The frame of the deletion of a live document, its memory taken. Errors: as `delete_update`.
    pub(crate) fn deletion<K: Keyed>(
        &mut self,
        alloc: Global,
        master: &PreparedMaster<'_, K>,
        id: DocId,
    ) -> Result<Vec<u8>, CommandFault>
        requires live { IsSome ((facts self.old.registry).live (id_number id)) }
        requires number { IsNumber self.old.frames }
        ensures registry { self.new.registry ≡ self.old.registry }
        ensures frames { self.new.frames ≡ self.old.frames }
        ensures past { self.new.past ≡ self.old.past }
        ensures keeps { Keeps (keyed_fn K.prf K.pad) master.now (known_words self.old.registry) self.old.keys → Keeps (keyed_fn K.prf K.pad) master.now (known_words self.new.registry) self.new.keys }
        ensures fault { Keeps (keyed_fn K.prf K.pad) master.now (known_words self.old.registry) self.old.keys → result ≢ Err CommandFault.NoMemory → result_err result ≡ option_map clash_fault (delete_collision (keyed_fn K.prf K.pad) master.now (id_number id) (unwrap_or ((facts self.old.registry).live (id_number id)) [])) }
        ensures bytes { Keeps (keyed_fn K.prf K.pad) master.now (known_words self.old.registry) self.old.keys → IfOk result (λ bytes. bytes.items ≡ frame_bytes (delete_text (keyed_fn K.prf K.pad) master.now self.old.frames (id_number id) (unwrap_or ((facts self.old.registry).live (id_number id)) []))) }
        ensures frame { IfOk result (λ bytes. IsFrame bytes.items) }
    {
        delete_update(
            alloc,
            master,
            &self.registry,
            &mut self.keys,
            self.frames,
            id,
        )
    }

    /// The number of the next update frame.
    pub(crate) fn number(&self) -> u32
        ensures { result ≡ self.now.frames }
    {
        self.frames
    }

    /// Why the document isn't added, but for two equal values.
    pub(crate) fn add_refusal(&self, doc: &Doc) -> Option<CommandFault>
        ensures { result ≡ refusal_to_add (facts self.now.registry) self.now.frames doc.now }
    {
        if self.registry.is_live(doc.id()) {
            return Some(CommandFault::AlreadyLive(doc.id().get()));
        }
        match self.registry.full_counter(doc) {
            Some(position) => Some(CommandFault::CounterFull(position)),
            None => self.full(),
        }
    }

    /// Why the document of this identifier isn't deleted, but for two equal values.
    pub(crate) fn delete_refusal(&self, id: DocId) -> Option<CommandFault>
        ensures { result ≡ refusal_to_delete (facts self.now.registry) self.now.frames (id_number id) }
    {
        if self.registry.is_live(id) {
            self.full()
        } else {
            Some(CommandFault::UnknownDocument(id.get()))
        }
    }

    /// Whether there is no number for one update frame more.
    fn full(&self) -> Option<CommandFault>
        ensures { result ≡ full_refusal self.now.frames }
    {
        match frames_after(self.frames, 1) {
            Ok(_) => None,
            Err(HistoryFull) => Some(CommandFault::HistoryFull),
        }
    }
}
