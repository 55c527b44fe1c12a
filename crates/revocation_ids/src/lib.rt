//! The revocation numbers that an addition and a deletion send for pairs that were listed before. `split` divides a
//! document's words into those whose pair is new and those whose pair is listed; `Numbers` collects an identifier's
//! number under each word's key and sorts them. It depends on `client_registry` for what is listed, on `word_keys`
//! for keys and on `client_tag_order` for the order.
//! Proved: a split is `fresh_places` and `listed_places` of specs/Places.antt (`PlaceLaws`), and the numbers are the
//! formula of `keyed_fn`, sorted; or two equal ones are named, or memory ran out.
//! Not here: keeping or listing anything.
//! Side: client.
#![tactic(auto)]

mod numbered_word;
mod numbers;
mod parts;
mod split_words;

pub use numbered_word::NumberedWord;
pub use numbers::Numbers;
pub use parts::Split;
pub use split_words::split;
