ghost use Rattle.std.specs.Prelude.{◌≡◌, ◌^◌, ◌<◌, ◌≤◌, IfOk};
ghost use Rattle.script_documents.specs.LineDocument.{document};
ghost use Rattle.script_made_lines.specs.Words.{made_words};

use client_registry::Doc;
use script_documents::{LineFault, document_of};
use script_made_lines::words_line;
use sse_script::Fields;
use std::alloc::{AllocError, Global};

// Promise P103 (caller): The document of a number has that identifier and its 60 words; or memory runs out.
//   clauses: ensures; assumes: sizes in bounds
/// The document of this number, from 1, of the made scripts of a seed: its identifier is the number, and it has the 60 words of
/// docs/FORMATS.md, "The made script".
pub fn gen_doc(alloc: Global, seed: u32, number: u64) -> Result<Doc, AllocError>
    requires some { 1 ≤ number }
    requires within { number < 2 ^ 36 }
    ensures { IfOk result (λ doc. doc ≡ document number (made_words seed number)) }
{
    let words = words_line(seed, number);
    match document_of(alloc, number, Fields::new(words.as_str().as_bytes())) {
        Ok(doc) => Ok(doc),
        Err(LineFault::NoMemory) => Err(AllocError),
        Err(LineFault::Refused(_)) => unreachable!(),
    }
}
