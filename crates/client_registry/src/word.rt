ghost use Rattle.std.specs.Prelude.{◌≡◌, ◌<◌, ◌≤◌, None, IfOk, IfErr, IfSome, IsOk, OnOk, length, position};
ghost use Rattle.client_registry.specs.WordRule.{word_refusal, clean_len, is_forbidden};

use crate::faults::WordFault;
use crate::limits::MAX_WORD_BYTES;
use arrayvec::ArrayString;

/// A word: 1 to 64 bytes of UTF-8 without the bytes 00 to 20 and 7f, which lie in the value itself. Words are
/// compared by their bytes.
#[derive(Clone, Copy, PartialEq, Eq, Hash)]
pub struct Word {
    text: ArrayString<MAX_WORD_BYTES>,
    pub ghost is_word: { word_refusal text.bytes ≡ None },
}

impl Word {
    ghost use Rattle.client_registry.specs.WordBytes.{word_bytes};

    // Promise P57 (caller): A word is 1 to 64 bytes of UTF-8 without forbidden bytes; otherwise the first cause is named.
    //   clauses: ok, refused, accepted
    /// Reads a word out of all the bytes. It takes no memory.
    ///
    /// Errors, the first that stands: `Empty` where there is no byte; `TooLong(n)` where there are n bytes,
    /// more than 64; `BadByte(place)` at the first forbidden byte (00 to 20 and 7f) or the first ill-formed
    /// UTF-8 sequence, whichever is the lesser place.
    pub fn read(bytes: &[u8]) -> Result<Word, WordFault>
        ensures ok { IfOk result (λ word. word_bytes word ≡ bytes.now) }
        ensures refused { IfSome (word_refusal bytes.now) (λ fault. result ≡ Err fault) }
        ensures accepted { word_refusal bytes.now ≡ None → IsOk result }
    {
        if bytes.is_empty() {
            return Err(WordFault::Empty);
        }
        if bytes.len() > MAX_WORD_BYTES {
            return Err(WordFault::TooLong(bytes.len() as u64));
        }
        match clean_text(bytes) {
            Ok(text) => Ok(Word::of_text(text)),
            Err(place) => Err(WordFault::BadByte(place as u64)),
        }
    }

    /// The word of a text that is one.
    fn of_text(text: &str) -> Word
        requires { word_refusal text.now ≡ None }
        ensures { word_bytes result ≡ text.now }
    {
        let mut copy = ArrayString::new();
        copy.push_str(text);
        Word { text: copy }
    }

    /// The bytes of the word.
    pub fn bytes(&self) -> &[u8]
        ensures bytes { result.now ≡ word_bytes self.now }
        ensures some { 1 ≤ length result.now }
        ensures within { length result.now ≤ MAX_WORD_BYTES }
        ensures is_word { word_refusal result.now ≡ None }
    {
        self.text.as_str().as_bytes()
    }
}

/// Whether the byte stands in no word: a control byte, the blank, or 7f.
fn is_forbidden(byte: u8) -> bool
    ensures { result ≡ is_forbidden byte }
{
    byte <= 0x20 || byte == 0x7f
}

/// The place of the first forbidden byte.
fn first_forbidden(bytes: &[u8]) -> Option<usize>
    ensures first { result ≡ position is_forbidden bytes.now }
    ensures within { IfSome result (λ place. place < length bytes.now) }
{
    bytes.iter().position(|byte| is_forbidden(*byte))
}

/// The bytes as a text, where all are allowed; else the place of the first forbidden byte or of the first ill-formed
/// UTF-8 sequence.
fn clean_text(bytes: &[u8]) -> Result<&str, usize>
    ensures text { IfOk result (λ text. text.now ≡ bytes.now) }
    ensures clean { OnOk result (length bytes.now ≤ clean_len bytes.now) }
    ensures place { IfErr result (λ place. place ≡ clean_len bytes.now) }
    ensures within { IfErr result (λ place. place < length bytes.now) }
{
    let allowed = first_forbidden(bytes).unwrap_or(bytes.len());
    match str::from_utf8(bytes) {
        Ok(text) if allowed == bytes.len() => Ok(text),
        Ok(_) => Err(allowed),
        Err(fault) => Err(allowed.min(fault.valid_up_to())),
    }
}
