ghost use Rattle.std.specs.Prelude.{◌≡◌, ◌≢◌, ℕ, ◌+◌, ◌^◌, ◌<◌, ◌≤◌, ◌==◌, List, [], length, take, drop, IfOk, OnOk, OnErr, IsErrOf};
ghost use Rattle.std.specs.Option.{option_map};
ghost use Rattle.std.specs.List.{position_or_len, after_first};
ghost use Rattle.std.specs.Io.KnownBytes.{prepend_known, IsAtEnd};
ghost use Rattle.sse_outside.specs.Causes.{HasCause, Rose};
ghost use Rattle.sse_script.specs.TextLines.{lines_left, bytes_to_come, TakesNext};

use crate::{NextLine, NoMemory, ReadStop};
use sse_outside::{Failed, Source};
use std::alloc::Global;
use std::marker::Model;

/// The most bytes that a line may have, its ending not counted.
pub const MAX_LINE: usize = 1 << 19;

/// How many bytes are read at once.
const CHUNK: usize = 1 << 16;

/// Cuts what a source hands out into lines, which end with the byte 0a. Contracts see the bytes that it has read
/// and not yet given: a caller that takes another source loses them.
///
/// It keeps a chunk of 2^16 bytes beside the line, and each byte is looked at once or twice, so that a text of any
/// length goes through in time in proportion to it, and no more than `MAX_LINE` bytes of a line are ever kept.
#[derive(Drop)]
pub struct LineReader {
    chunk: Vec<u8>,
    from: usize,
    to: usize,
}

impl Model for LineReader {
    ghost use Rattle.std.specs.Prelude.{◌<◌, ◌≤◌, ℕ, List, length, slice_range};

    ghost Value = { List ℕ };

    ghost view = { λ r. slice_range r.chunk.items r.from r.to };

    ghost invariant = { λ r. (r.from ≤ r.to) × (r.to ≤ length r.chunk.items) × (0 < length r.chunk.items) };
}

impl LineReader {
    /// A reader that has read nothing yet.
    pub fn new(alloc: Global) -> Result<LineReader, NoMemory>
        ensures { IfOk result (λ reader. reader ≡ []) }
    {
        Ok(LineReader {
            chunk: vec![in alloc; 0; CHUNK]?,
            from: 0,
            to: 0,
        })
    }

    // Promise P105 (caller): The lines taken from a source are its text's lines; a line longer than 2^19 bytes is passed over.
    //   clauses: taken, short, failed, steady, no_memory; assumes: observable devices
    /// Puts the next line of `source`, without its ending, in the place of what `line` holds.
    ///
    /// A last line needs no ending: `a`, and `a` with 0a after it, have one line each, an empty input has none.
    /// A line of more than `MAX_LINE` bytes is passed over, with its ending. With no line read, `line` is empty.
    /// After an error some front of what was left is lost, which may end within a line. With `ReadStop::Failed` the
    /// source's count of faults rose, and with any other answer it stays.
    pub fn next_line<S: Source>(
        &mut self,
        source: &mut S,
        line: &mut Vec<u8>,
    ) -> Result<NextLine, ReadStop>
        ensures taken { IfOk result (λ next. TakesNext (lines_left self.old (S.remaining source.old))
            (lines_left self.new (S.remaining source.new)) next line.new.items) }
        ensures short { OnOk result (length line.new.items ≤ MAX_LINE) }
        ensures nothing { IfOk result (λ next. next ≢ NextLine.Line → line.new.items ≡ []) }
        ensures at_end { IfOk result (λ next. next ≡ NextLine.End → IsAtEnd (S.remaining source.new)) }

        // What makes a loop over the lines end.
        ensures less { IfOk result (λ next. next ≢ NextLine.End →
            bytes_to_come self.new (S.handed_out source.new)
            < bytes_to_come self.old (S.handed_out source.old)) }
        ensures later { S.faults source.old ≤ S.faults source.new }
        ensures failed { IsErrOf result ReadStop.Failed → Rose (S.faults source.old) (S.faults source.new) }
        ensures steady { OnOk result (S.faults source.new ≡ S.faults source.old) }
        ensures no_memory { IsErrOf result ReadStop.NoMemory → S.faults source.new ≡ S.faults source.old }
    {
        line.clear();
        'reading: loop {
            let count = self.line_front();
            if count > MAX_LINE - line.len() {
                line.clear();
                self.consume(count);
                self.skip_line(source)?;
                return Ok(NextLine::TooLong);
            }
            line.extend_from_slice(self.first(count))?;
            if count < self.len() {
                self.consume(count + 1);
                return Ok(NextLine::Line);
            }
            self.consume(count);
            if self.refill(source)? > 0 {
                continue;
            }
            if line.is_empty() {
                return Ok(NextLine::End);
            }
            return Ok(NextLine::Line);
        }
    }

    /// Passes over the rest of a line, with its ending.
    fn skip_line<S: Source>(&mut self, source: &mut S) -> Result<(), Failed>
        ensures rest { OnOk result (prepend_known self.new (S.remaining source.new)
            ≡ option_map (after_first (λ b. b == 10)) (prepend_known self.old (S.remaining source.old))) }
        ensures come { OnOk result (bytes_to_come self.new (S.handed_out source.new)
            ≤ bytes_to_come self.old (S.handed_out source.old)) }
        ensures cause { HasCause (S.faults source.old) (S.faults source.new) result }
    {
        'skipping: loop {
            let count = self.line_front();
            if count < self.len() {
                self.consume(count + 1);
                return Ok(());
            }
            self.consume(count);
            if self.refill(source)? == 0 {
                return Ok(());
            }
        }
    }

    /// The bytes that were read and not yet given.
    fn pending(&self) -> &[u8]
        ensures { result.now ≡ self.now }
    {
        &self.chunk[self.from..self.to]
    }

    /// How many bytes are pending.
    fn len(&self) -> usize
        ensures { result ≡ length self.now }
    {
        self.pending().len()
    }

    /// How many bytes are pending before the first ending, or in all where there is none.
    fn line_front(&self) -> usize
        ensures count { result ≡ position_or_len (λ b. b == 10) self.now }
        ensures within { result ≤ length self.now }
    {
        self.pending().iter().take_while(|b| **b != b'\n').count()
    }

    /// The first of the bytes that are pending.
    fn first(&self, count: usize) -> &[u8]
        requires { count ≤ length self.now }
        ensures { result.now ≡ take count self.now }
    {
        let (first, _) = self.pending().split_at(count);
        first
    }

    /// Gives away the first of the bytes that are pending.
    fn consume(&mut self, count: usize)
        requires { count ≤ length self.old }
        ensures { self.new ≡ drop count self.old }
    {
        self.from += count;
    }

    /// Reads more bytes where none is pending, and answers how many: none is the end of the input.
    fn refill<S: Source>(&mut self, source: &mut S) -> Result<usize, Failed>
        requires { self.old ≡ [] }
        ensures count { IfOk result (λ n. n ≡ length self.new) }
        ensures same { OnOk result (prepend_known self.new (S.remaining source.new) ≡ S.remaining source.old) }
        ensures end { IfOk result (λ n. n ≡ 0 → IsAtEnd (S.remaining source.new)) }
        ensures handed { IfOk result (λ n. S.handed_out source.new ≡ S.handed_out source.old + n) }
        ensures within { OnOk result (S.handed_out source.new ≤ 2 ^ 63) }
        ensures err { OnErr result (self.new ≡ []) }
        ensures cause { HasCause (S.faults source.old) (S.faults source.new) result }
    {
        let count = source.read(&mut self.chunk)?;
        self.from = 0;
        self.to = count;
        Ok(count)
    }
}
