ghost use Rattle.std.specs.Prelude.{◌≡◌, ◌+◌, ◌<◌, ◌≤◌, ◌==◌, [], ◌∷◌, length, option_map, IfSome, IfNone};
ghost use Rattle.std.specs.List.{position_or_len};
ghost use Rattle.sse_script.specs.Fields.{fields_of};
ghost use Rattle.sse_script.specs.Numbers as numbers;
ghost use Rattle.sse_script.specs.TextLines.{lines_of};
ghost use Rattle.script_made_lines.specs.Summary as summary;
ghost use Rattle.script_made_lines.specs.SummaryViews.{counts_view};

use crate::number::number_of;
use sse_script::Fields;

/// How many words and blocks a setup has.
#[derive(Clone, Copy)]
pub(crate) struct Counts {
    pub(crate) words: u64,
    pub(crate) blocks: u64,
}

/// How many printed lines begin so.
pub(crate) fn count_with(kind: &[u8], printed: &[u8]) -> usize
    ensures { result ≡ summary.count_with kind.now (lines_of printed.now) }
{
    let mut left = printed;
    let mut count = 0;
    while let Some((line, rest)) = first_line(left) {
        if line.starts_with(kind) {
            count += 1;
        }
        left = rest;
    }
    count
}

/// The words and blocks of the first printed line that tells a setup.
pub(crate) fn first_counts(printed: &[u8]) -> Option<Counts>
    ensures { option_map counts_view result ≡ summary.first_counts (lines_of printed.now) }
{
    let mut left = printed;
    while let Some((line, rest)) = first_line(left) {
        if let Some(counts) = counts_in(line) {
            return Some(counts);
        }
        left = rest;
    }
    None
}

/// Those of a line, where it tells a setup.
fn counts_in(line: &[u8]) -> Option<Counts>
    ensures { option_map counts_view result ≡ summary.counts_in (fields_of line.now) }
{
    let mut fields = Fields::new(line);
    let set = fields.next()?;
    let up = fields.next()?;
    let words = fields.next()?;
    let _called = fields.next()?;
    let blocks = fields.next()?;
    if set == b"set".as_slice() && up == b"up".as_slice() {
        counts_of(words, blocks)
    } else {
        None
    }
}

/// Those that two fields tell.
fn counts_of(words: &[u8], blocks: &[u8]) -> Option<Counts>
    ensures { option_map counts_view result ≡ summary.counts_of (numbers.number_of words.now) (numbers.number_of blocks.now) }
{
    let words = number_of(words)?;
    let blocks = number_of(blocks)?;
    Some(Counts { words, blocks })
}

/// How many identifiers the printed lines show.
pub(crate) fn identifiers_shown(printed: &[u8]) -> usize
    ensures { result ≡ summary.identifiers_shown (lines_of printed.now) }
{
    let mut left = printed;
    let mut shown = 0;
    while let Some((line, rest)) = first_line(left) {
        shown += identifiers_in(line);
        left = rest;
    }
    shown
}

/// How many identifiers a line shows.
fn identifiers_in(line: &[u8]) -> usize
    ensures count { result ≡ summary.identifiers_in line.now }
    ensures few { result ≤ length line.now }
{
    if line.starts_with(b"found ") {
        line.iter()
            .filter(|byte| **byte == b' ')
            .count()
            .saturating_sub(1)
    } else {
        0
    }
}

/// The first line of a text, and the text behind its end; none where there is no text.
fn first_line(text: &[u8]) -> Option<(&[u8], &[u8])>
    ensures some { IfSome result (λ parts. lines_of text.now ≡ parts.0.now ∷ lines_of parts.1.now) }
    ensures less { IfSome result (λ parts. length parts.1.now < length text.now) }
    ensures within { IfSome result (λ parts. length parts.0.now + length parts.1.now ≤ length text.now) }
    ensures none { IfNone result (text.now ≡ []) }
{
    if text.is_empty() {
        return None;
    }
    let (line, end) = text.split_at(line_len(text));
    if end.is_empty() {
        return Some((line, end));
    }
    let (_, rest) = end.split_at(1);
    Some((line, rest))
}

/// How many bytes stand before the end of the first line.
fn line_len(text: &[u8]) -> usize
    ensures count { result ≡ position_or_len (λ byte. byte == 10) text.now }
    ensures within { result ≤ length text.now }
{
    text.iter().take_while(|byte| **byte != b'\n').count()
}
