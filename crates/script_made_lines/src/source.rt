ghost use Rattle.std.specs.Prelude.{◌≡◌, ◌+◌, ◌*◌, ◌^◌, ◌<◌, ◌≤◌, ◌++◌, [], length, take, Some};
ghost use Rattle.std.specs.Counts.{IsPrefixLen};
ghost use Rattle.arrayvec.specs.ArrayString.{array_string_len};
ghost use Rattle.script_made_lines.specs.Script.{made_text};

use crate::line_at::line_at;
use crate::line_buffer::{LineBuffer, ended_line};
use sse_outside::{Failed, Source, hand_out};

/// The made script of a seed and a number of documents, as a source that never fails: its count of faults is 0. It holds one line
/// at a time, and takes no memory.
#[derive(Drop)]
pub struct MadeScript {
    seed: u32,
    documents: u32,
    /// The number of the line behind the one in hand.
    next: u64,
    line: LineBuffer,
    /// How much of the line in hand was handed out.
    at: usize,
    handed_out: u64,
    ghost in_line: { at ≤ array_string_len line },
    ghost few_lines: { next ≤ 2 ^ 36 },
    ghost short_lines: { handed_out + array_string_len line ≤ 512 * next + at },
}

impl MadeScript {
    ghost use Rattle.script_made_lines.specs.Source.{left_of};

    // Promise P102 (caller): A made script has the text of its seed and number of documents, and its summary counts the lines that a run printed.
    //   clauses: content, handed_out; not: That printed identifiers are the ones found. That no command is refused is P163.
    /// The script of this seed, for so many documents.
    pub fn new(seed: u32, documents: u32) -> MadeScript
        ensures content { ⟦<MadeScript as Source>⟧.remaining result ≡ Some (made_text seed documents) }
        ensures handed_out { ⟦<MadeScript as Source>⟧.handed_out result ≡ 0 }
    {
        MadeScript {
            seed,
            documents,
            next: 0,
            line: LineBuffer::new(),
            at: 0,
            handed_out: 0,
        }
    }

    /// Sees to it that something of a line is in hand, where there is a line left.
    fn refill(&mut self)
        ensures left { left_of self.new ≡ left_of self.old }
        ensures at_end { self.new.at ≡ array_string_len self.new.line → left_of self.new ≡ [] }
        ensures handed_out { self.new.handed_out ≡ self.old.handed_out }
    {
        if self.at == self.line.len() {
            self.advance();
        }
    }

    /// Takes the next line in hand, where there is one.
    fn advance(&mut self)
        requires { self.old.at ≡ array_string_len self.old.line }
        ensures left { left_of self.new ≡ left_of self.old }
        ensures at_end { self.new.at ≡ array_string_len self.new.line → left_of self.new ≡ [] }
        ensures handed_out { self.new.handed_out ≡ self.old.handed_out }
    {
        if let Some(line) = line_at(self.documents, self.next) {
            self.line = ended_line(self.seed, line);
            self.at = 0;
            self.next += 1;
        }
    }

    /// Hands out what is in hand of the line, as far as it fits.
    fn hand_over(&mut self, out: &mut [u8]) -> usize
        requires { 0 < length out.old }
        ensures bound { IsPrefixLen result out.new }
        ensures left { left_of self.old ≡ take result out.new ++ left_of self.new }
        ensures some { result ≡ 0 → self.old.at ≡ array_string_len self.old.line }
        ensures none { result ≡ 0 → left_of self.new ≡ left_of self.old }
        ensures handed_out { self.new.handed_out ≡ self.old.handed_out + result }
    {
        let count = hand_out(self.line.as_str().as_bytes(), self.at, out);
        self.at += count;
        self.handed_out += count as u64;
        count
    }
}

impl Source for MadeScript {
    ghost use Rattle.std.specs.Prelude.{Some};
    ghost use Rattle.script_made_lines.specs.Source.{left_of};

    ghost remaining = { λ s. Some (left_of s) };

    ghost handed_out = { λ s. s.handed_out };

    ghost faults = { λ _. 0 };

    fn read(&mut self, out: &mut [u8]) -> Result<usize, Failed> {
        self.refill();
        Ok(self.hand_over(out))
    }
}
