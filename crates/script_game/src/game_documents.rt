ghost use Rattle.std.specs.Prelude.{◌≡◌, ◌≤◌, ◌∷◌, [], ◌++◌, IfOk, None, OnOk, codes};
ghost use Rattle.client_registry.specs.Documents.{docs_refusal};
ghost use Rattle.client_registry.specs.Setup.{setup_with};
ghost use Rattle.client_registry.specs.WordBytes.{word_bytes};
ghost use Rattle.script_game.specs.GameDocuments as game;
ghost use Rattle.sse_script.specs.Fields.{fields_of};

use crate::game_side::GameSide;
use client_registry::{Doc, Docs, DocsFault, HashKeys, Sizes, Word};
use script_documents::{LineFault, document_of};
use sse_script::Fields;
use std::alloc::{AllocError, Global};

/// The word that both sides search.
pub fn game_word() -> Word
    ensures { word_bytes result ≡ codes "s" }
{
    match Word::read(b"s") {
        Ok(word) => word,
        Err(_) => unreachable!(),
    }
}

/// The document of this identifier, from 1, on one side.
pub fn game_document(alloc: Global, id: u64, side: GameSide) -> Result<Doc, AllocError>
    requires { 1 ≤ id }
    ensures { IfOk result (λ doc. doc ≡ game.game_document side id) }
{
    match document_of(alloc, id, Fields::new(words_line(side))) {
        Ok(doc) => Ok(doc),
        Err(LineFault::NoMemory) => Err(AllocError),
        Err(LineFault::Refused(_)) => unreachable!(),
    }
}

/// The words of the documents of one side, with a space between them.
fn words_line(side: GameSide) -> &'static [u8]
    ensures { fields_of result.now ≡ game.game_words side }
{
    match side {
        GameSide::Left => b"s l",
        GameSide::Right => b"s r",
    }
}

/// The documents of the setup on one side, whose words and identifiers are hashed under these keys.
pub fn game_docs(alloc: Global, keys: HashKeys, side: GameSide) -> Result<Docs, AllocError>
    ensures { IfOk result (λ docs. docs.documents ≡ game.game_documents side) }
{
    let mut docs = Docs::new(alloc, keys);
    push_document(alloc, &mut docs, 1, side)?;
    push_document(alloc, &mut docs, 2, side)?;
    push_document(alloc, &mut docs, 3, side)?;
    push_document(alloc, &mut docs, 4, side)?;
    Ok(docs)
}

/// Adds the document of this identifier, from 1, to those of a setup.
fn push_document(alloc: Global, docs: &mut Docs, id: u64, side: GameSide) -> Result<(), AllocError>
    requires some { 1 ≤ id }
    requires accepted { docs_refusal docs.old.documents (game.game_document side id) ≡ None }
    ensures { OnOk result (docs.new.documents ≡ docs.old.documents ++ game.game_document side id ∷ []) }
{
    let doc = game_document(alloc, id, side)?;
    match docs.push(doc) {
        Ok(()) => Ok(()),
        Err(DocsFault::NoMemory) => Err(AllocError),
        Err(_) => unreachable!(),
    }
}

/// The parameters of the setups.
pub fn game_sizes() -> Sizes
    ensures { (side : GameSide) → setup_with (game.game_documents side) result.b result.big result.pad ≡ game.game_setup side }
{
    Sizes {
        b: 4,
        big: 4,
        pad: 1,
    }
}
