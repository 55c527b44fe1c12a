ghost use Rattle.std.specs.Prelude.{◌≡◌, ◌∷◌, ◌++◌, ℕ, [], if◌then◌else◌, IfOk, IfSome, None, OnOk};
ghost use Rattle.bool_search.specs.Joined as meaning;
ghost use Rattle.bool_search.specs.Joined.{IsFirst, IsRising, has};

use crate::join::Join;
use std::alloc::{AllocError, Global};

/// The least number of two lists, which of them have it, and what is left of each after it.
#[derive(Clone, Copy)]
struct First<'a> {
    number: u64,
    in_left: bool,
    in_right: bool,
    left: &'a [u64],
    right: &'a [u64],
}

impl Join {
    /// Whether a number is taken, by whether the left list has it and whether the right one does.
    fn takes(self, left: bool, right: bool) -> bool
        ensures { result ≡ meaning.takes self left right }
    {
        match self {
            Join::And => left && right,
            Join::Not => left && !right,
            Join::Or => left || right,
        }
    }
}

/// The numbers of two rising lists that are taken, rising, in time in proportion to the lengths of both.
pub fn joined(
    alloc: Global,
    join: Join,
    left: &[u64],
    right: &[u64],
) -> Result<Vec<u64>, AllocError>
    requires left { IsRising left.now }
    requires right { IsRising right.now }
    ensures rising { IfOk result (λ ids. IsRising ids.items) }
    ensures members { IfOk result (λ ids. (n : ℕ) → has n ids.items ≡ meaning.takes join (has n left.now) (has n right.now)) }
{
    let mut ids = Vec::new(alloc);
    let mut left_rest = left;
    let mut right_rest = right;
    'ids: while let Some(first) = first_of(left_rest, right_rest) {
        let taken = join.takes(first.in_left, first.in_right);
        push_if(&mut ids, taken, first.number)?;
        left_rest = first.left;
        right_rest = first.right;
    }
    Ok(ids)
}

/// Adds a number that is taken.
fn push_if(ids: &mut Vec<u64>, taken: bool, number: u64) -> Result<(), AllocError>
    ensures { OnOk result (ids.new.items ≡ (if taken then ids.old.items ++ number ∷ [] else ids.old.items)) }
{
    if taken {
        ids.push(number)?;
    }
    Ok(())
}

/// The least number of two rising lists, if one of them has any.
fn first_of<'a>(left: &'a [u64], right: &'a [u64]) -> Option<First<'a>>
    requires left { IsRising left.now }
    requires right { IsRising right.now }
    ensures some { IfSome result (λ first. IsFirst first.number first.in_left first.in_right left.now first.left.now right.now first.right.now) }
    ensures left_empty { result ≡ None → left.now ≡ [] }
    ensures right_empty { result ≡ None → right.now ≡ [] }
{
    match left.split_first() {
        Some((a, left_rest)) => match right.split_first() {
            Some((b, right_rest)) => Some(lesser(left, *a, left_rest, right, *b, right_rest)),
            None => Some(First {
                number: *a,
                in_left: true,
                in_right: false,
                left: left_rest,
                right,
            }),
        },
        None => match right.split_first() {
            Some((b, right_rest)) => Some(First {
                number: *b,
                in_left: false,
                in_right: true,
                left,
                right: right_rest,
            }),
            None => None,
        },
    }
}

/// The lesser of the first numbers of two lists.
fn lesser<'a>(
    left: &'a [u64],
    a: u64,
    left_rest: &'a [u64],
    right: &'a [u64],
    b: u64,
    right_rest: &'a [u64],
) -> First<'a>
    requires left { IsRising left.now }
    requires left_is { left.now ≡ a ∷ left_rest.now }
    requires right { IsRising right.now }
    requires right_is { right.now ≡ b ∷ right_rest.now }
    ensures { IsFirst result.number result.in_left result.in_right left.now result.left.now right.now result.right.now }
{
    if a < b {
        return First {
            number: a,
            in_left: true,
            in_right: false,
            left: left_rest,
            right,
        };
    }
    if b < a {
        return First {
            number: b,
            in_left: false,
            in_right: true,
            left,
            right: right_rest,
        };
    }
    First {
        number: a,
        in_left: true,
        in_right: true,
        left: left_rest,
        right: right_rest,
    }
}
