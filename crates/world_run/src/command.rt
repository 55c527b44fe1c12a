ghost use Rattle.world_rules.specs.Promises.{IsSizedChange};
ghost use Rattle.world_run.specs.Commands.{change_of};

use client_registry::{Doc, DocId, Docs, Sizes};

/// What changes the documents of a client.
#[derive(Drop)]
pub enum Command {
    /// These documents are set up, with these parameters.
    SetUp(Docs, Sizes),
    /// A document is added.
    Add(Doc),
    /// The document of this identifier is deleted.
    Delete(DocId),
    /// The live documents are set up again under this key.
    Renew([u8; 32]),
}

/// What a command holds keeps the limits of words, documents and identifiers, by its types.
pub fn keeps_limits(command: &Command)
    ensures { IsSizedChange (change_of command.now) }
{
    match command {
        Command::SetUp(docs, _) => {
            let _count = docs.len();
        }
        Command::Add(doc) => {
            let _words = doc.words();
        }
        Command::Delete(id) => {
            let _number = id.get();
        }
        Command::Renew(_) => {}
    }
}
