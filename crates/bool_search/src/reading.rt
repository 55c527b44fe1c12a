ghost use Rattle.std.specs.Prelude.{◌≡◌, ◌≢◌, ◌≤◌, ◌-◌, ℕ, [], ◌∷◌, length, option_map, None, Some, Err, IfOk, IfErr, OnOk};
ghost use Rattle.bool_search.specs.Grammar.{Tree, tree_of, printed, IsMade};
ghost use Rattle.bool_search.specs.Parsing.{query_of};
ghost use Rattle.bool_search.specs.Places.{IsRead, StopsAt, Reads, first_bad};

use crate::front::{Begin, close, factor_join, front, term_join};
use crate::join::Join;
use crate::node::Node;
use crate::sign::Sign;
use std::alloc::{AllocError, AllocFailed, Global};

/// Why a part of a query isn't read.
#[derive(Clone, Copy)]
pub enum Stop {
    /// So many signs are left, the first of which no expression allows there; if none is left, no expression ends there.
    Bad(usize),
    /// Out of memory.
    NoMemory,
}

impl From<AllocError> for Stop {
    ghost use Rattle.bool_search.specs.declared.reading.Stop.TheVariants.{NoMemory};

    ghost from_gives = { λ _ stop. stop ≡ NoMemory };

    fn from(_e: AllocError) -> Stop {
        Stop::NoMemory
    }
}

impl<T: Drop> From<AllocFailed<T>> for Stop {
    ghost use Rattle.bool_search.specs.declared.reading.Stop.TheVariants.{NoMemory};

    ghost from_gives = { λ _ stop. stop ≡ NoMemory };

    fn from(_e: AllocFailed<T>) -> Stop {
        Stop::NoMemory
    }
}

/// What was read, and the signs after it.
#[derive(Drop)]
pub struct Part<'a> {
    pub node: Node,
    pub rest: &'a [Sign],
}

/// An operand, or an expression in parentheses.
#[cycle(grammar)]
#[tactic(auto, using(crate::proofs::Stopping::stops_first))]
fn factor<'a>(alloc: Global, signs: &'a [Sign]) -> Result<Part<'a>, Stop>
    ensures read { IfOk result (λ read. IsRead 0 signs.now (tree_of read.node) read.rest.now) }
    ensures stops { IfErr result (λ stop. StopsAt 0 signs.now stop) }
{
    match front(signs) {
        Begin::Word(word, rest) => Ok(Part {
            node: Node::Word(word),
            rest,
        }),
        Begin::Open(rest) => within(alloc, rest),
        Begin::Neither => Err(Stop::Bad(signs.len())),
    }
}

/// The rest of an expression in parentheses.
#[cycle(grammar)]
#[tactic(auto, using(crate::proofs::Stopping::stops_within, crate::proofs::Stopping::stops_open))]
fn within<'a>(alloc: Global, signs: &'a [Sign]) -> Result<Part<'a>, Stop>
    ensures read { IfOk result (λ read. IsRead 0 (Sign.Open ∷ signs.now) (tree_of read.node) read.rest.now) }
    ensures stops { IfErr result (λ stop. StopsAt 0 (Sign.Open ∷ signs.now) stop) }
{
    let inner = expression(alloc, signs)?;
    match close(inner.rest) {
        Some(rest) => Ok(Part {
            node: Node::Within(Box::new(alloc, inner.node)?),
            rest,
        }),
        None => Err(Stop::Bad(inner.rest.len())),
    }
}

/// Factors that are joined by `and` or `not`.
#[cycle(grammar)]
#[tactic(auto, using(crate::proofs::Stopping::stops_term, crate::proofs::Stopping::stops_joined))]
fn term<'a>(alloc: Global, signs: &'a [Sign]) -> Result<Part<'a>, Stop>
    ensures read { IfOk result (λ read. IsRead 1 signs.now (tree_of read.node) read.rest.now) }
    ensures stops { IfErr result (λ stop. StopsAt 1 signs.now stop) }
{
    let mut read = factor(alloc, signs)?;
    'factors: loop {
        match factor_join(read.rest) {
            Some((join, behind)) => {
                let next = factor(alloc, behind)?;
                read = Part {
                    node: join.join(alloc, read.node, next.node)?,
                    rest: next.rest,
                };
            }
            None => return Ok(read),
        }
    }
}

/// Terms that are joined by `or`.
#[cycle(grammar)]
#[tactic(auto, using(crate::proofs::Stopping::stops_expression, crate::proofs::Stopping::stops_or))]
fn expression<'a>(alloc: Global, signs: &'a [Sign]) -> Result<Part<'a>, Stop>
    ensures read { IfOk result (λ read. IsRead 2 signs.now (tree_of read.node) read.rest.now) }
    ensures stops { IfErr result (λ stop. StopsAt 2 signs.now stop) }
{
    let mut read = term(alloc, signs)?;
    'terms: loop {
        match term_join(read.rest) {
            Some(behind) => {
                let next = term(alloc, behind)?;
                read = Part {
                    node: Join::Or.join(alloc, read.node, next.node)?,
                    rest: next.rest,
                };
            }
            None => return Ok(read),
        }
    }
}

/// Why signs are no query.
#[derive(Clone, Copy)]
pub enum SignFault {
    /// The first place at which no expression goes on, counted from 0; the end of the signs is a place too.
    BadQuery(u64),
    /// Out of memory.
    NoMemory,
}

/// Reads signs as a query.
#[tactic(auto, using(crate::proofs::ReadResults::reads_query, crate::proofs::ReadResults::reads_good, crate::proofs::ReadResults::reads_bad))]
pub fn read_query(alloc: Global, signs: &[Sign]) -> Result<Node, SignFault>
    ensures query { IfOk result (λ node. query_of signs.now ≡ Some (tree_of node)) }
    ensures good { OnOk result (first_bad signs.now ≡ None) }
    ensures bad { IfErr result (λ fault. fault ≢ SignFault.NoMemory → option_map SignFault.BadQuery (first_bad signs.now) ≡ Some fault) }
{
    read_all(alloc, signs)
}

/// Reads all of the signs.
#[tactic(auto, using(crate::proofs::Exactly::bad_at_stop, crate::proofs::Exactly::left_within, crate::proofs::Exactly::rest_within, crate::proofs::Exactly::reads_whole))]
fn read_all(alloc: Global, signs: &[Sign]) -> Result<Node, SignFault>
    ensures { Reads signs.now result }
{
    match expression(alloc, signs) {
        Ok(read) => whole(read, signs.len()),
        Err(Stop::Bad(left)) => Err(SignFault::BadQuery((signs.len() - left) as u64)),
        Err(Stop::NoMemory) => Err(SignFault::NoMemory),
    }
}

/// What was read, if it is all of so many signs.
fn whole(read: Part<'_>, count: usize) -> Result<Node, SignFault>
    requires { length read.rest.now ≤ count }
    ensures all { IfOk result (λ node. (node ≡ read.entry.node) × (read.entry.rest.now ≡ [])) }
    ensures bad { (place : ℕ) → result ≡ Err (SignFault.BadQuery place) → (read.entry.rest.now ≢ []) × (place ≡ count - length read.entry.rest.now) }
{
    if read.rest.is_empty() {
        return Ok(read.node);
    }
    Err(SignFault::BadQuery((count - read.rest.len()) as u64))
}
