ghost use Rattle.std.specs.Prelude.{◌<◌, length};

use crate::digits::{push_marked, push_number};
use client_live_docs::{copy_doc, copy_docs};
use client_registry::{Doc, Docs, HashKeys, Word};
use leakage_history::Command;
use std::alloc::{AllocError, Global};

/// Appends words, each in hexadecimal digits behind a blank.
fn push_words(text: &mut String, alloc: Global, words: &[Word]) -> Result<(), AllocError> {
    for word in words {
        push_marked(text, alloc, " ", word.bytes())?;
    }
    Ok(())
}

/// Appends the document at this place: its identifier, then its words.
fn push_document(text: &mut String, alloc: Global, docs: &Docs, i: usize) -> Result<(), AllocError>
    requires { i < length docs.now.documents }
{
    let kept = docs.get(i);
    text.push_str(" ")?;
    push_number(text, alloc, kept.id.get())?;
    for number in kept.numbers {
        push_marked(text, alloc, " ", docs.word(*number as usize).bytes())?;
    }
    text.push_str(";")
}

/// Appends all documents.
fn push_each(text: &mut String, alloc: Global, docs: &Docs) -> Result<(), AllocError> {
    for i in 0..docs.len() {
        push_document(text, alloc, docs, i)?;
    }
    text.push_str("\n")
}

/// Appends the line of the documents of a setup, copied under other keys: of each the identifier and the words.
pub(crate) fn push_documents(
    text: &mut String,
    alloc: Global,
    docs: &Docs,
) -> Result<(), AllocError> {
    text.push_str("documents")?;
    let copy = copy_docs(alloc, docs, HashKeys::new(7, 11))?;
    let ended = push_each(text, alloc, &copy);
    drop(copy);
    ended
}

/// Appends an addition of a document, copied: the identifier and the words.
fn push_addition(text: &mut String, alloc: Global, doc: &Doc) -> Result<(), AllocError> {
    let copy = copy_doc(alloc, doc)?;
    text.push_str(" add ")?;
    push_number(text, alloc, copy.id().get())?;
    push_words(text, alloc, copy.words())
}

/// Appends a command: what it does, and its document, its identifier or its word.
fn push_command(text: &mut String, alloc: Global, command: &Command) -> Result<(), AllocError> {
    match command {
        Command::Add(doc) => push_addition(text, alloc, doc)?,
        Command::Delete(id) => {
            text.push_str(" del ")?;
            push_number(text, alloc, id.get())?;
        }
        Command::Search(word) => push_marked(text, alloc, " find ", word.bytes())?,
    }
    text.push_str(";")
}

/// Appends the line of the commands that a history took after its setup.
pub(crate) fn push_commands(
    text: &mut String,
    alloc: Global,
    commands: &[Command],
) -> Result<(), AllocError> {
    text.push_str("commands")?;
    for command in commands {
        push_command(text, alloc, command)?;
    }
    text.push_str("\n")
}
