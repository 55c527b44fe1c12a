ghost use Rattle.std.specs.Prelude.{◌≡◌, ◌≤◌, ◌<◌, ◌≢◌, All, None, Some, map, length, IfOk, IfErr, OnOk};
ghost use Rattle.std.specs.List.Sorted.{IsNonDecreasing};
ghost use Rattle.client_registry.specs.WordBytes.{word_bytes};
ghost use Rattle.bool_search.specs.Asked.{tree_in, words_in};
ghost use Rattle.bool_search.specs.Chosen.{chosen};
ghost use Rattle.bool_search.specs.Fields.{signs_of, words_of};
ghost use Rattle.bool_search.specs.Parsing.{query_of};
ghost use Rattle.bool_search.specs.Refused.{query_refusal};

use crate::answering::answer;
use crate::fault::QueryFault;
use crate::fields::{different, read_words, signs};
use crate::node::Node;
use crate::reading::{SignFault, read_query};
use client_registry::Word;
use sse_script::Fields;
use std::alloc::{AllocError, Global};

/// The most fields that a query may have.
pub const MAX_FIELDS: usize = 64;

/// A query over words: which of their searches' answers it joins, and how.
#[derive(Drop)]
pub struct Query {
    node: Node,
    words: Vec<Word>,
}

impl Query {
    // Promise P236 (caller): Fields are read as the one expression of the grammar that they are, or the first cause is named why they are none.
    //   clauses: tree, accepted, refused; not: Out of memory may come in place of each outcome.
    // Promise P237, also here; clauses: words
    /// Reads the fields of a query.
    ///
    /// An operand is `=` and the bytes of a word; the other fields are `and`, `or`, `not`, `(` and `)`. An expression is
    /// terms joined by `or`. A term is factors joined from the left by `and` or `not`. A factor is an operand, or an
    /// expression in parentheses.
    ///
    /// Errors, the first that stands: `TooManyFields(n)` for n fields, more than 64; `BadQuery(place)` at the first
    /// field, or the end, that no expression allows there; `BadWord` for the first operand that is no word, by its
    /// position among the operands. With none of these, `NoMemory` if memory runs out.
    pub fn read(alloc: Global, fields: Fields<'_>) -> Result<Query, QueryFault>
        ensures tree { IfOk result (λ query. query_of (signs_of fields.entry) ≡ Some (tree_in query)) }
        ensures words { IfOk result (λ query. words_in query ≡ words_of fields.entry) }
        ensures accepted { OnOk result (query_refusal fields.entry ≡ None) }
        ensures refused { IfErr result (λ fault. fault ≢ QueryFault.NoMemory → query_refusal fields.entry ≡ Some fault) }
    {
        let fields = gather(alloc, fields)?;
        if fields.len() > MAX_FIELDS {
            return Err(QueryFault::TooManyFields(fields.len() as u64));
        }
        Query::read_few(alloc, &fields)
    }

    /// Reads the fields of a query that has no more of them than it may have.
    #[tactic(auto, using(crate::proofs::ReadResults::refusal_place, crate::proofs::ReadResults::refusal_word))]
    fn read_few(alloc: Global, fields: &[&[u8]]) -> Result<Query, QueryFault>
        requires { length fields.now ≤ 64 }
        ensures tree { IfOk result (λ query. query_of (signs_of (map (λ field. field.now) fields.now)) ≡ Some (tree_in query)) }
        ensures words { IfOk result (λ query. words_in query ≡ words_of (map (λ field. field.now) fields.now)) }
        ensures accepted { OnOk result (query_refusal (map (λ field. field.now) fields.now) ≡ None) }
        ensures refused { IfErr result (λ fault. fault ≢ QueryFault.NoMemory → query_refusal (map (λ field. field.now) fields.now) ≡ Some fault) }
    {
        let different = different(alloc, fields)?;
        let signs = signs(alloc, fields, &different)?;
        let node = match read_query(alloc, &signs) {
            Ok(node) => node,
            Err(SignFault::BadQuery(place)) => return Err(QueryFault::BadQuery(place)),
            Err(SignFault::NoMemory) => return Err(QueryFault::NoMemory),
        };
        let words = read_words(alloc, fields)?;
        Ok(Query { node, words })
    }

    // Promise P237 (caller): The words of a query are its different operands, in the order of their first appearance.
    //   clauses: ensures
    /// The different words of the query, in the order of their first appearance.
    pub fn words(&self) -> &[Word]
        ensures { map word_bytes result.now ≡ words_in self.now }
    {
        &self.words
    }

    // Promise P238 (caller): A query chooses by its set algebra among the identifiers that were found for its words.
    //   clauses: ensures; assumes: sizes in bounds
    /// The identifiers that the query chooses, rising, each once. The lists are those of its words in their order, and
    /// each of them rises; numbers in them may repeat.
    pub fn answer(&self, alloc: Global, lists: &[Vec<u64>]) -> Result<Vec<u64>, AllocError>
        requires lists { length lists.now ≡ length (words_in self.now) }
        requires rise { All (λ list. IsNonDecreasing list.items) lists.now }
        ensures { IfOk result (λ ids. ids.items ≡ chosen (tree_in self.now) (map (λ list. list.items) lists.now)) }
    {
        answer(alloc, &self.node, lists)
    }
}

/// All fields.
fn gather<'a>(alloc: Global, mut fields: Fields<'a>) -> Result<Vec<&'a [u8]>, AllocError>
    ensures { IfOk result (λ found. map (λ field. field.now) found.items ≡ fields.entry) }
{
    let mut found = Vec::new(alloc);
    'fields: while let Some(field) = fields.next() {
        found.push(field)?;
    }
    Ok(found)
}
