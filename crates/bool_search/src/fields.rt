ghost use Rattle.std.specs.Prelude.{◌≡◌, ◌≢◌, ◌≤◌, ◌<◌, ◌^◌, ℕ, List, map, length, vec_len, bytes_eq, Ok, Err, None, Some, option_map, IfOk, IfErr, OnOk, IfSome, ◌++◌, position};
ghost use Rattle.std.specs.List.{list_any};
ghost use Rattle.client_registry.specs.WordBytes.{word_bytes};
ghost use Rattle.bool_search.specs.Fields as meaning;
ghost use Rattle.bool_search.specs.Fields.{if_new, operands, words_of};
ghost use Rattle.bool_search.specs.Refused.{first_bad_word};

use crate::fault::QueryFault;
use crate::sign::Sign;
use client_registry::Word;
use std::alloc::{AllocError, Global};

/// The word of an operand, which is `=` and at least one byte after it.
fn operand(field: &[u8]) -> Option<&[u8]>
    ensures { option_map (λ word. word.now) result ≡ meaning.operand_of field.now }
{
    match field {
        [b'=', word @ ..] if !word.is_empty() => Some(word),
        _ => None,
    }
}

/// The different operands in the order of their first appearance.
pub fn different<'a>(alloc: Global, fields: &[&'a [u8]]) -> Result<Vec<&'a [u8]>, AllocError>
    ensures words { IfOk result (λ words. map (λ word. word.now) words.items ≡ words_of (map (λ field. field.now) fields.now)) }
{
    let mut words = Vec::new(alloc);
    'fields: for field in fields {
        if let Some(word) = operand(field) {
            push_if_new(&mut words, word)?;
        }
    }
    Ok(words)
}

/// Adds a word that isn't among those before it.
fn push_if_new<'a>(words: &mut Vec<&'a [u8]>, word: &'a [u8]) -> Result<(), AllocError>
    ensures { OnOk result (map (λ word. word.now) words.new.items ≡ map (λ word. word.now) words.old.items ++ if_new (map (λ word. word.now) words.old.items) word.now) }
{
    match place_of(word, words) {
        Some(_) => Ok(()),
        None => Ok(words.push(word)?),
    }
}

/// The place of a word among others.
fn place_of(word: &[u8], words: &[&[u8]]) -> Option<usize>
    ensures place { result ≡ position (λ other. bytes_eq word.now other.now) words.now }
    ensures within { IfSome result (λ place. place < length words.now) }
{
    words.iter().position(|other| word == *other)
}

/// The fields as signs, by these different operands.
pub fn signs(alloc: Global, fields: &[&[u8]], words: &[&[u8]]) -> Result<Vec<Sign>, AllocError>
    requires { length words.now < 2 ^ 32 }
    ensures { IfOk result (λ signs. signs.items ≡ map (meaning.sign_in (map (λ word. word.now) words.now)) (map (λ field. field.now) fields.now)) }
{
    let mut signs = Vec::with_capacity(alloc, fields.len())?;
    'fields: for field in fields {
        signs.push(sign(field, words))?;
    }
    Ok(signs)
}

/// A field as a sign.
fn sign(field: &[u8], words: &[&[u8]]) -> Sign
    requires { length words.now < 2 ^ 32 }
    ensures { result ≡ meaning.sign_in (map (λ word. word.now) words.now) field.now }
{
    match operand(field) {
        Some(word) => Sign::Operand(number(word, words)),
        None => mark(field),
    }
}

/// The number of a word among others.
fn number(word: &[u8], words: &[&[u8]]) -> u32
    requires { length words.now < 2 ^ 32 }
    ensures { result ≡ meaning.number_in (map (λ word. word.now) words.now) word.now }
{
    place_of(word, words).unwrap_or(0) as u32
}

/// A field that is no operand, as a sign.
fn mark(field: &[u8]) -> Sign
    ensures { result ≡ meaning.mark_of field.now }
{
    if field == b"and".as_slice() {
        Sign::And
    } else if field == b"or".as_slice() {
        Sign::Or
    } else if field == b"not".as_slice() {
        Sign::Not
    } else if field == b"(".as_slice() {
        Sign::Open
    } else if field == b")".as_slice() {
        Sign::Close
    } else {
        Sign::Other
    }
}

/// The words of the operands, each once, in the order of their first appearance; or the first operand that is none.
pub fn read_words(alloc: Global, fields: &[&[u8]]) -> Result<Vec<Word>, QueryFault>
    requires { length fields.now < 2 ^ 32 }
    ensures ok { IfOk result (λ words. map word_bytes words.items ≡ words_of (map (λ field. field.now) fields.now)) }
    ensures good { OnOk result (first_bad_word 0 (operands (map (λ field. field.now) fields.now)) ≡ None) }
    ensures bad { IfErr result (λ fault. fault ≢ QueryFault.NoMemory → first_bad_word 0 (operands (map (λ field. field.now) fields.now)) ≡ Some fault) }
{
    let mut words = Vec::new(alloc);
    let mut position = 0;
    'fields: for field in fields {
        if let Some(operand) = operand(field) {
            match Word::read(operand) {
                Ok(word) => push_if_new_word(&mut words, word)?,
                Err(fault) => return Err(QueryFault::BadWord { position, fault }),
            }
            position += 1;
        }
    }
    Ok(words)
}

/// Adds a word that isn't among those before it.
fn push_if_new_word(words: &mut Vec<Word>, word: Word) -> Result<(), AllocError>
    ensures { OnOk result (map word_bytes words.new.items ≡ map word_bytes words.old.items ++ if_new (map word_bytes words.old.items) (word_bytes word)) }
{
    if !is_among(&word, words) {
        words.push(word)?;
    }
    Ok(())
}

/// Whether a word is among others.
fn is_among(word: &Word, words: &[Word]) -> bool
    ensures { result ≡ list_any (λ other. bytes_eq (word_bytes word.now) (word_bytes other)) words.now }
{
    words.iter().any(|other| word == other)
}
