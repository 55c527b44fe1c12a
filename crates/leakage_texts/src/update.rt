ghost use Rattle.std.specs.Prelude.{◌≡◌, ◌≤◌, ◌++◌, IfOk, OnOk, filter, length, map, option_map, string_bytes};
ghost use Rattle.leakage_frames.specs.Views.{origin_view, seen_view, word_view};
ghost use Rattle.leakage_texts.specs.LeakTexts as texts;
ghost use Rattle.leakage_texts.specs.LeakTexts.{again_text, known_text, update_head, update_text, word_text, words_text};

use crate::numbers::plural;
use leakage_frames::{Origin, Seen, Sent, WordLeak};
use std::alloc::{AllocError, Global};

/// Puts what an update shows of a document's words at the end of the line, behind what it does.
pub(crate) fn push_update(
    alloc: Global,
    line: &mut String,
    does: &str,
    words: &[WordLeak],
) -> Result<(), AllocError>
    ensures { OnOk result (string_bytes line.new ≡ string_bytes line.old ++ update_text does.now (map word_view words.now)) }
{
    let head = head_of(alloc, does, words.len(), count_new(words))?;
    line.push_str(head.as_str())?;
    push_words(alloc, line, words)
}

/// What an update does, to how many words, and how many of them are new.
fn head_of(alloc: Global, does: &str, count: usize, new: usize) -> Result<String, AllocError>
    ensures { IfOk result (λ text. string_bytes text ≡ update_head does.now count new) }
{
    let words_are = plural(count as u64, "word", "words");
    format!(in alloc; "{does} a document of {count} {words_are}, {new} new")
}

/// For how many of the words something is sent for the first time.
fn count_new(words: &[WordLeak]) -> usize
    ensures { result ≡ length (filter texts.is_new (map word_view words.now)) }
{
    let mut count = 0;
    for word in words {
        if is_new(word) {
            count += 1;
        }
    }
    count
}

/// Whether something is sent for the word for the first time.
fn is_new(word: &WordLeak) -> bool
    ensures { result ≡ texts.is_new (word_view word.now) }
{
    !matches!(word.sent, Sent::Again(_))
}

/// Puts the part of each word that has one at the end of the line.
fn push_words(alloc: Global, line: &mut String, words: &[WordLeak]) -> Result<(), AllocError>
    ensures { OnOk result (string_bytes line.new ≡ string_bytes line.old ++ words_text (map word_view words.now)) }
{
    for place in 0..words.len() {
        let word = &words[place];
        push_word(alloc, line, place, word)?;
    }
    Ok(())
}

/// The same of the word at this place.
fn push_word(
    alloc: Global,
    line: &mut String,
    place: usize,
    word: &WordLeak,
) -> Result<(), AllocError>
    ensures { OnOk result (string_bytes line.new ≡ string_bytes line.old ++ word_text place (word_view word.now)) }
{
    match word.sent {
        Sent::Again(origin) => {
            let part = again_part(alloc, place, origin, word.seen)?;
            line.push_str(part.as_str())
        }
        Sent::Entry | Sent::Fresh => match word.seen {
            Some(seen) => {
                let part = seen_part(alloc, place, seen)?;
                line.push_str(part.as_str())
            }
            None => Ok(()),
        },
    }
}

/// The part of a word whose revocation number came first elsewhere.
fn again_part(
    alloc: Global,
    place: usize,
    origin: Origin,
    seen: Option<Seen>,
) -> Result<String, AllocError>
    ensures { IfOk result (λ text. string_bytes text ≡ again_text place (origin_view origin) (option_map seen_view seen)) }
{
    let Origin {
        command,
        place: first,
    } = origin;
    match seen {
        Some(Seen { search, id }) => format!(in alloc;
            "; word {place} is word {first} of command {command} and was searched by command {search}, so identifier {id} shows"
        ),
        None => format!(in alloc; "; word {place} is word {first} of command {command}"),
    }
}

/// The part of a word that was searched, and is new otherwise.
fn seen_part(alloc: Global, place: usize, seen: Seen) -> Result<String, AllocError>
    ensures { IfOk result (λ text. string_bytes text ≡ texts.seen_text place (seen_view seen)) }
{
    let Seen { search, id } = seen;
    format!(in alloc; "; word {place} was searched by command {search}, so identifier {id} shows")
}
