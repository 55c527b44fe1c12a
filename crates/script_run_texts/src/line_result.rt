ghost use Rattle.std.specs.Prelude.{◌≡◌, ◌≤◌, flat_map, IfErr, OnOk, OnErr};
ghost use Rattle.std.specs.Io.KnownBytes.{append_known};
ghost use Rattle.sse_outside.specs.Fronts.{TookFront};
ghost use Rattle.sse_script.specs.Texts.{text_of};
ghost use Rattle.script_run_texts.specs.Causes.{PrintCause};
ghost use Rattle.script_run_texts.specs.LineResultViews.{line_result_view, refuses};

use sse_outside::{DeviceFault, Sink};
use sse_script::{Refusal, Shown, print};
use std::alloc::Global;

/// What a line of the script came to.
#[derive(Drop)]
pub enum LineResult {
    /// Nothing is printed.
    Nothing,
    /// The documents were set up.
    SetUp { words: u32, blocks: u32 },
    /// The live documents were set up again under another key.
    Rebuilt { words: u32, blocks: u32 },
    /// The document of this identifier was added.
    Added { id: u64 },
    /// It was deleted.
    Deleted { id: u64 },
    /// A search gave these identifiers, rising.
    Found(Vec<u64>),
    /// A query chose these identifiers, rising.
    Matched(Vec<u64>),
    /// The command was refused.
    Refused(Refusal),
}

impl LineResult {
    /// Whether the command was refused.
    pub fn is_refusal(&self) -> bool
        ensures { result ≡ refuses self.now }
    {
        matches!(self, LineResult::Refused(_))
    }

    // Promise P145 (caller): A line's printed outcome is its text; after an error, a prefix of it.
    //   clauses: all, front; assumes: observable devices
    /// Prints the line of the outcome, where it has one.
    pub fn print<W: Sink>(&self, alloc: Global, sink: &mut W) -> Result<(), DeviceFault>
        ensures all { OnOk result (W.written sink.new ≡ append_known (W.written sink.old) (flat_map text_of (line_result_view self.now))) }
        ensures front { OnErr result (TookFront (W.written sink.old) (W.written sink.new) (flat_map text_of (line_result_view self.now))) }
        ensures steady { OnOk result (W.faults sink.new ≡ W.faults sink.old) }
        ensures cause { IfErr result (PrintCause (W.faults sink.old) (W.faults sink.new)) }
        ensures no_fewer { W.shortages sink.old ≤ W.shortages sink.new }
    {
        match self {
            LineResult::Nothing => Ok(()),
            LineResult::SetUp { words, blocks } => {
                let (words, blocks) = (*words, *blocks);
                print(alloc, sink, &Shown::SetUp { words, blocks })
            }
            LineResult::Rebuilt { words, blocks } => {
                let (words, blocks) = (*words, *blocks);
                print(alloc, sink, &Shown::Rebuilt { words, blocks })
            }
            LineResult::Added { id } => print(alloc, sink, &Shown::Added { id: *id }),
            LineResult::Deleted { id } => print(alloc, sink, &Shown::Deleted { id: *id }),
            LineResult::Found(ids) => print(
                alloc,
                sink,
                &Shown::Found {
                    ids: ids.as_slice(),
                },
            ),
            LineResult::Matched(ids) => print(
                alloc,
                sink,
                &Shown::Matched {
                    ids: ids.as_slice(),
                },
            ),
            LineResult::Refused(refusal) => {
                let refusal = *refusal;
                print(alloc, sink, &Shown::Refused(refusal))
            }
        }
    }
}
