ghost use Rattle.std.specs.Prelude.{◌≡◌, ◌+◌, ◌^◌, ◌<◌, ◌≤◌, ◌++◌, length, decimal, codes};
ghost use Rattle.arrayvec.specs.ArrayString.{array_string_len};
ghost use Rattle.hex.specs.Hex.{encode_lower};
ghost use Rattle.script_made_lines.specs.Lines as lines;
ghost use Rattle.script_made_lines.specs.Buffer.{IsWithin, shared_text};
ghost use Rattle.script_made_lines.specs.Lines.{document_text, made_key, words_text};
ghost use Rattle.script_made_lines.specs.Script as script;
ghost use Rattle.script_made_lines.specs.Words as words;

use crate::made_line::MadeLine;
use arrayvec::ArrayString;
use itoa::Buffer;

/// Room for a line of the script: a document has a number of at most 20 digits and, each behind a space, `all`, `m` and a digit,
/// `u` and 20 digits at most, and 57 times `w` and three digits.
pub type LineBuffer = ArrayString<512>;

/// The line with its end, byte 0a.
pub(crate) fn ended_line(seed: u32, line: MadeLine) -> LineBuffer
    requires { IsWithin line }
    ensures { result.bytes ≡ script.ended_line seed line }
{
    let mut buffer = LineBuffer::new();
    push_line(&mut buffer, seed, line);
    buffer.push_str("\n");
    buffer
}

/// Puts a line without its end at the end.
fn push_line(buffer: &mut LineBuffer, seed: u32, line: MadeLine)
    requires within { IsWithin line }
    requires room { array_string_len buffer.old ≡ 0 }
    ensures text { buffer.new.bytes ≡ buffer.old.bytes ++ lines.line_text seed line }
    ensures short { array_string_len buffer.new ≤ 400 }
{
    match line {
        MadeLine::Key => {
            buffer.push_str("key ");
            push_key(buffer, seed);
        }
        MadeLine::Doc(id) => {
            buffer.push_str("doc ");
            push_document(buffer, seed, id);
        }
        MadeLine::SetUp => buffer.push_str("setup 16 64"),
        MadeLine::Delete(id) => push_numbered(buffer, "del ", id),
        MadeLine::Add(id) => {
            buffer.push_str("add ");
            push_document(buffer, seed, id);
        }
        MadeLine::Find(number) => {
            buffer.push_str("find ");
            push_searched(buffer, seed, number);
        }
    }
}

/// Puts the key of a seed at the end, as hexadecimal digits.
fn push_key(buffer: &mut LineBuffer, seed: u32)
    requires { array_string_len buffer.old ≤ 4 }
    ensures text { buffer.new.bytes ≡ buffer.old.bytes ++ encode_lower (made_key seed) }
    ensures short { array_string_len buffer.new ≤ array_string_len buffer.old + 64 }
{
    let mut key = [0; 32];
    key[24..].copy_from_slice(&u64::from(seed).to_be_bytes());
    let mut digits = [0; 64];
    let Ok(()) = hex::encode_to_slice(key, &mut digits) else {
        unreachable!()
    };
    let Ok(text) = str::from_utf8(&digits) else {
        unreachable!()
    };
    buffer.push_str(text);
}

/// Puts a document's number and its words at the end.
fn push_document(buffer: &mut LineBuffer, seed: u32, id: u64)
    requires within { id < 2 ^ 36 }
    requires room { array_string_len buffer.old ≤ 4 }
    ensures text { buffer.new.bytes ≡ buffer.old.bytes ++ document_text seed id }
    ensures short { array_string_len buffer.new ≤ array_string_len buffer.old + 360 }
{
    push_numbered(buffer, "", id);
    push_words(buffer, seed, id);
}

// Promise P103, also here; clauses: ensures
/// The words of a document of the made script, each behind a space.
pub fn words_line(seed: u32, id: u64) -> LineBuffer
    requires { id < 2 ^ 36 }
    ensures { result.bytes ≡ words_text (words.made_words seed id) }
{
    let mut buffer = LineBuffer::new();
    push_words(&mut buffer, seed, id);
    buffer
}

/// Puts a document's words at the end, each behind a space.
fn push_words(buffer: &mut LineBuffer, seed: u32, id: u64)
    requires within { id < 2 ^ 36 }
    requires room { array_string_len buffer.old ≤ 24 }
    ensures text { buffer.new.bytes ≡ buffer.old.bytes ++ words_text (words.made_words seed id) }
    ensures short { array_string_len buffer.new ≤ array_string_len buffer.old + 336 }
{
    push_numbered(buffer, " all m", id % 10);
    push_numbered(buffer, " u", id);
    push_shared(buffer, seed, id);
}

/// Puts those of a document's words at the end that it shares with many.
fn push_shared(buffer: &mut LineBuffer, seed: u32, id: u64)
    requires within { id < 2 ^ 36 }
    requires room { array_string_len buffer.old ≤ 80 }
    ensures text { buffer.new.bytes ≡ buffer.old.bytes ++ shared_text seed id 57 }
    ensures short { array_string_len buffer.new ≤ array_string_len buffer.old + 285 }
{
    for j in 0..57 {
        push_numbered(buffer, " w", (id + u64::from(seed) + 17 * j) % 1000);
    }
}

/// Puts the word of a search at the end.
fn push_searched(buffer: &mut LineBuffer, seed: u32, number: u64)
    requires within { number < 2 ^ 36 }
    requires room { array_string_len buffer.old ≤ 5 }
    ensures text { buffer.new.bytes ≡ buffer.old.bytes ++ words.searched_word seed number }
    ensures short { array_string_len buffer.new ≤ array_string_len buffer.old + 21 }
{
    if number == 0 {
        buffer.push_str("all");
    } else if number <= 10 {
        push_numbered(buffer, "m", number - 1);
    } else {
        push_numbered(buffer, "w", (u64::from(seed) + 5 * number) % 1000);
    }
}

/// Puts a text and a number at the end.
fn push_numbered(buffer: &mut LineBuffer, text: &str, n: u64)
    requires { array_string_len buffer.old + length text.now + 20 ≤ 512 }
    ensures text { buffer.new.bytes ≡ buffer.old.bytes ++ (text.now ++ decimal n) }
    ensures short { array_string_len buffer.new ≤ array_string_len buffer.old + length text.now + 20 }
    ensures three { n < 1000 → array_string_len buffer.new ≤ array_string_len buffer.old + length text.now + 3 }
{
    let mut digits = Buffer::new();
    buffer.push_str(text);
    buffer.push_str(digits.format(n));
}
