ghost use Rattle.std.specs.Prelude.{◌≡◌, ℕ, ◌+◌, ◌-◌, ◌^◌, ◌≤◌, ◌<◌, [], true, false, min, option_map, IfOk, IfErr, IfSome, OnOk};
ghost use Rattle.std.specs.Io.KnownBytes.{IsAtEnd};
ghost use Rattle.std.specs.Result.{result_ok};
ghost use Rattle.script_run_texts.specs.Causes.{InputCause};
ghost use Rattle.script_run_texts.specs.LineWords.{words_in};
ghost use Rattle.script_run_texts.specs.Twins.{is_twin_line};
ghost use Rattle.sse_script.specs.Lines.{line_of};
ghost use Rattle.sse_script.specs.TextLines.{bytes_to_come, lines_left, TakesLine, SkipsLine};
ghost use Rattle.sse_script.specs.Views.{line_view};

use crate::InputStop;
use crate::twin_line::parts_scripts;
use sse_outside::Source;
use sse_script::{Line, LineReader, NextLine, read_line};
use std::alloc::{AllocError, Global};
use std::marker::Model;

/// The lines of a script, counted from 1. Contracts see the bytes that were read and not yet given, the line read last and
/// its number.
#[derive(Drop)]
pub struct Input {
    reader: LineReader,
    line: Vec<u8>,
    number: u64,
}

impl Model for Input {
    ghost use Rattle.script_run_texts.specs.Inputs.{Reading};

    ghost Value = { Reading };

    ghost view = { λ i. record { pending = i.reader; line = i.line.items; number = i.number } };
}

impl Input {
    /// No line read yet.
    pub fn new(alloc: Global) -> Result<Input, AllocError>
        ensures pending { IfOk result (λ input. input.pending ≡ []) }
        ensures number { IfOk result (λ input. input.number ≡ 0) }
    {
        Ok(Input {
            reader: LineReader::new(alloc)?,
            line: Vec::new(alloc),
            number: 0,
        })
    }

    /// The number of the line read last, from 1; at the end of the input one more than the lines.
    pub fn number(&self) -> u64
        ensures { result ≡ self.now.number }
    {
        self.number
    }

    // Promise P106 (caller): A script's lines are read one by one, counted from 1; a line outside the grammar stops with its number.
    //   clauses: line, end, too_long, counted, counted_long; assumes: earlier calls
    /// Reads the next line; false at the end of the input. A line that is too long is passed over, and stops.
    pub fn advance<S: Source>(&mut self, source: &mut S) -> Result<bool, InputStop>
        ensures line { IfOk result (λ more. more ≡ true →
            TakesLine (lines_left self.old.pending (S.remaining source.old)) (lines_left self.new.pending (S.remaining source.new)) self.new.line) }
        ensures end { IfOk result (λ more. more ≡ false → IfSome (lines_left self.old.pending (S.remaining source.old)) (λ lines. lines ≡ [])) }
        ensures at_end { IfOk result (λ more. more ≡ false → IsAtEnd (S.remaining source.new)) }
        ensures too_long { (number : ℕ) → result ≡ Err (InputStop.Line number) →
            SkipsLine (lines_left self.old.pending (S.remaining source.old)) (lines_left self.new.pending (S.remaining source.new)) }
        ensures counted { OnOk result (self.new.number ≡ min (self.old.number + 1) (2 ^ 64 - 1)) }
        ensures counted_long { (number : ℕ) → result ≡ Err (InputStop.Line number) → number ≡ min (self.old.number + 1) (2 ^ 64 - 1) }
        ensures less { IfOk result (λ more. more ≡ true →
            bytes_to_come self.new.pending (S.handed_out source.new) < bytes_to_come self.old.pending (S.handed_out source.old)) }
        ensures later { S.faults source.old ≤ S.faults source.new }
        ensures steady { OnOk result (S.faults source.new ≡ S.faults source.old) }
        ensures cause { IfErr result (InputCause (S.faults source.old) (S.faults source.new)) }
    {
        let next = self.reader.next_line(source, &mut self.line)?;
        self.number = self.number.saturating_add(1);
        match next {
            NextLine::Line => Ok(true),
            NextLine::TooLong => Err(InputStop::Line(self.number)),
            NextLine::End => Ok(false),
        }
    }

    /// The bytes of the line read last, without their newline.
    pub fn bytes(&self) -> &[u8]
        ensures { result.now ≡ self.now.line }
    {
        &self.line
    }

    // Promise P106, also here; clauses: read, bad
    /// The line read last, by the grammar.
    pub fn line(&self) -> Result<Line<'_>, InputStop>
        ensures read { option_map line_view (result_ok result) ≡ line_of self.now.line }
        ensures bad { IfErr result (λ stop. stop ≡ InputStop.Line self.now.number) }
        ensures words { IfOk result (λ line. words_in (line_view line) ≤ 2 ^ 19) }
    {
        match read_line(&self.line, self.number) {
            Ok(line) => Ok(line),
            Err(_) => Err(InputStop::Line(self.number)),
        }
    }

    /// Whether the line read last is the one between two scripts, `twin` alone; it isn't in the grammar of a script.
    pub fn is_twin(&self) -> bool
        ensures { result ≡ is_twin_line self.now.line }
    {
        parts_scripts(&self.line)
    }
}
