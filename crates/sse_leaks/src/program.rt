ghost use Rattle.std.specs.Prelude.{◌≡◌, IfSome};
ghost use Rattle.keyed_fn.specs.KeyedFn.{keyed_fn};
ghost use Rattle.script_history.specs.Endings.{seen_of};
ghost use Rattle.sse_leaks.specs.Given.{HadNoMemory, HasWords, IsAlone};
ghost use Rattle.sse_leaks.specs.LeakReport.{HasPrintedLeaks};
ghost use Rattle.sse_outside.specs.Fronts.{TookOrRose};
ghost use Rattle.sse_script.specs.Shown.{Stopped, BadWords, NoMemory};
ghost use Rattle.sse_script.specs.Texts.{text_of};

use crate::leak_report::leaks_run;
use keyed_fn::{Keyed, Real};
use script_run_texts::{StopCause, finish};
use sse_outside::{Sink, Source};
use std::alloc::Global;

/// What the command line gives.
#[derive(Drop)]
pub(crate) enum CommandLine {
    /// Its words, the program's name first.
    Words(Vec<String>),
    /// One of them is no text.
    NoText,
    /// There was no memory for them.
    NoMemory,
}

// Promise P28, also here; clauses: tells
/// All that the program does with a command line, a source and a sink, and the status to end with: it tells what a server would
/// learn of the script where no word stands behind its name.
pub(crate) fn run_program<S: Source, W: Sink>(
    alloc: Global,
    given: CommandLine,
    source: &mut S,
    sink: &mut W,
) -> u8
    ensures tells { IsAlone given → IfSome (S.remaining source.old) (λ bytes.
        HasPrintedLeaks (keyed_fn ⟦<Real as Keyed>⟧.prf ⟦<Real as Keyed>⟧.pad) bytes (seen_of (W.written sink.old) (W.faults sink.old) (W.shortages sink.old)) (seen_of (W.written sink.new) (W.faults sink.new) (W.shortages sink.new)) result) }
    ensures other_words { HasWords given → result ≡ 2 }
    ensures other_words_line { HasWords given →
        TookOrRose (W.written sink.old) (W.written sink.new) (text_of (Stopped BadWords)) (W.faults sink.old) (W.faults sink.new) (W.shortages sink.old) (W.shortages sink.new) }
    ensures no_memory { HadNoMemory given → result ≡ 7 }
    ensures no_memory_line { HadNoMemory given →
        TookOrRose (W.written sink.old) (W.written sink.new) (text_of (Stopped NoMemory)) (W.faults sink.old) (W.faults sink.new) (W.shortages sink.old) (W.shortages sink.new) }
{
    match given {
        CommandLine::Words(words) => {
            if words.len() > 1 {
                finish(sink, StopCause::Words)
            } else {
                leaks_run(alloc, &Real, source, sink)
            }
        }
        CommandLine::NoText => finish(sink, StopCause::Words),
        CommandLine::NoMemory => finish(sink, StopCause::Memory),
    }
}
