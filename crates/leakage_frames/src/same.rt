ghost use Rattle.std.specs.Prelude.{◌≡◌, ◌↔◌, IsTrue};
ghost use Rattle.leakage_frames.specs.Views.{leak_view};

use crate::leak::{Home, Leak, ListedLeak, WordLeak};

// Promise P41 (caller): Two items of leakage compare as equal if and only if they mean the same item.
//   clauses: ensures
/// Whether two items of leakage are the same. It takes no memory.
pub fn same_leak(left: &Leak, right: &Leak) -> bool
    ensures { IsTrue result ↔ (leak_view left.now ≡ leak_view right.now) }
{
    same_item(left, right)
}

/// The same of the values of the code.
fn same_item(left: &Leak, right: &Leak) -> bool
    ensures { IsTrue result ↔ (left.now ≡ right.now) }
{
    match (left, right) {
        (
            Leak::Setup {
                b,
                big,
                words,
                blocks,
            },
            Leak::Setup {
                b: other_b,
                big: other_big,
                words: other_words,
                blocks: other_blocks,
            },
        ) => b == other_b && big == other_big && words == other_words && blocks == other_blocks,
        (Leak::Add { words }, Leak::Add { words: others }) => {
            same_words(words.as_slice(), others.as_slice())
        }
        (Leak::Delete { words }, Leak::Delete { words: others }) => {
            same_words(words.as_slice(), others.as_slice())
        }
        (
            Leak::Search {
                earlier,
                home,
                listed,
                found,
            },
            Leak::Search {
                earlier: other_earlier,
                home: other_home,
                listed: other_listed,
                found: other_found,
            },
        ) => {
            earlier == other_earlier
                && same_home(home, other_home)
                && same_listed(listed.as_slice(), other_listed.as_slice())
                && found.as_slice() == other_found.as_slice()
        }
        _ => false,
    }
}

/// Whether these words' leakage is the same, word by word.
fn same_words(left: &[WordLeak], right: &[WordLeak]) -> bool
    ensures { IsTrue result ↔ (left.now ≡ right.now) }
{
    left == right
}

/// Whether the same is listed, pair by pair.
fn same_listed(left: &[ListedLeak], right: &[ListedLeak]) -> bool
    ensures { IsTrue result ↔ (left.now ≡ right.now) }
{
    left == right
}

/// Whether the setup holds both words at one place, or neither.
fn same_home(left: &Option<Home>, right: &Option<Home>) -> bool
    ensures { IsTrue result ↔ (left.now ≡ right.now) }
{
    match (left, right) {
        (Some(home), Some(other)) => {
            home.entry == other.entry && home.blocks.as_slice() == other.blocks.as_slice()
        }
        (None, None) => true,
        _ => false,
    }
}
