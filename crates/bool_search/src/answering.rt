ghost use Rattle.std.specs.Prelude.{◌≡◌, All, ℕ, List, [], get_or, map, IfOk};
ghost use Rattle.std.specs.List.Sorted.{IsNonDecreasing};
ghost use Rattle.bool_search.specs.Chosen as choices;
ghost use Rattle.bool_search.specs.Grammar.{Tree, Word, tree_by, tree_of};
ghost use Rattle.bool_search.specs.Joined.{Chooses, IsRising, has};

use crate::join::Join;
use crate::joining::joined;
use crate::node::Node;
use std::alloc::{AllocError, Global};

/// The identifiers that an expression chooses, rising, each once. The lists are those of the query's words, in their order.
fn chosen(alloc: Global, node: &Node, lists: &[Vec<u64>]) -> Result<Vec<u64>, AllocError>
    requires { All (λ list. IsNonDecreasing list.items) lists.now }
    ensures { IfOk result (λ ids. Chooses (tree_of node.now) (map (λ list. list.items) lists.now) ids.items) }
{
    match node {
        Node::Word(number) => of_word(alloc, lists, *number),
        Node::Within(inner) => chosen(alloc, inner, lists),
        Node::And(left, right) => {
            let left = chosen(alloc, left, lists)?;
            let right = chosen(alloc, right, lists)?;
            both(alloc, Join::And, &left, &right)
        }
        Node::Not(left, right) => {
            let left = chosen(alloc, left, lists)?;
            let right = chosen(alloc, right, lists)?;
            both(alloc, Join::Not, &left, &right)
        }
        Node::Or(left, right) => {
            let left = chosen(alloc, left, lists)?;
            let right = chosen(alloc, right, lists)?;
            both(alloc, Join::Or, &left, &right)
        }
    }
}

/// What two expressions choose, joined.
fn both(alloc: Global, join: Join, left: &[u64], right: &[u64]) -> Result<Vec<u64>, AllocError>
    requires left { IsRising left.now }
    requires right { IsRising right.now }
    ensures { (s t : Tree) (lists : List (List ℕ)) → Chooses s lists left.now → Chooses t lists right.now → IfOk result (λ ids. Chooses (tree_by join s t) lists ids.items) }
{
    let ids = joined(alloc, join, left, right)?;
    Ok(ids)
}

/// The identifiers of the word of this number, each once.
fn of_word(alloc: Global, lists: &[Vec<u64>], number: u32) -> Result<Vec<u64>, AllocError>
    requires { All (λ list. IsNonDecreasing list.items) lists.now }
    ensures { IfOk result (λ ids. Chooses (Word number) (map (λ list. list.items) lists.now) ids.items) }
{
    let list = list_of(lists, number);
    let ids = once(alloc, list)?;
    Ok(ids)
}

/// The list of this number.
fn list_of(lists: &[Vec<u64>], number: u32) -> &[u64]
    requires { All (λ list. IsNonDecreasing list.items) lists.now }
    ensures list { result.now ≡ get_or (map (λ list. list.items) lists.now) number [] }
    ensures rises { IsNonDecreasing result.now }
{
    match lists.get(number as usize) {
        Some(list) => list.as_slice(),
        None => &[],
    }
}

/// A list without its repeats.
fn once(alloc: Global, list: &[u64]) -> Result<Vec<u64>, AllocError>
    requires { IsNonDecreasing list.now }
    ensures rising { IfOk result (λ ids. IsRising ids.items) }
    ensures members { IfOk result (λ ids. (n : ℕ) → has n ids.items ≡ has n list.now) }
{
    let mut ids = Vec::from_slice(alloc, list)?;
    ids.dedup();
    Ok(ids)
}

/// The identifiers that a query chooses, rising, each once. The lists are those of its words, in their order.
pub fn answer(alloc: Global, query: &Node, lists: &[Vec<u64>]) -> Result<Vec<u64>, AllocError>
    requires { All (λ list. IsNonDecreasing list.items) lists.now }
    ensures { IfOk result (λ ids. ids.items ≡ choices.chosen (tree_of query.now) (map (λ list. list.items) lists.now)) }
{
    let ids = chosen(alloc, query, lists)?;
    Ok(ids)
}
