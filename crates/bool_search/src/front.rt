ghost use Rattle.std.specs.Prelude.{◌≡◌, ◌≢◌, ◌∷◌, None, IfSome};
ghost use Rattle.bool_search.specs.Grammar.{sign_of};
ghost use Rattle.bool_search.specs.Fronts.{IsFront, IsNoTermJoin, IsNoFactorJoin, IsNoClose};

use crate::join::Join;
use crate::sign::Sign;

/// What a factor begins with.
#[derive(Clone, Copy)]
pub enum Begin<'a> {
    /// An operand, and the signs after it.
    Word(u32, &'a [Sign]),
    /// A parenthesis, and the signs after it.
    Open(&'a [Sign]),
    /// No factor begins so.
    Neither,
}

/// What the signs begin with, if a factor begins so.
pub fn front(signs: &[Sign]) -> Begin<'_>
    ensures { IsFront result signs.now }
{
    match signs {
        [Sign::Operand(word), rest @ ..] => Begin::Word(*word, rest),
        [Sign::Open, rest @ ..] => Begin::Open(rest),
        _ => Begin::Neither,
    }
}

/// The first sign, if it is `and` or `not`, and the signs after it.
pub fn factor_join(signs: &[Sign]) -> Option<(Join, &[Sign])>
    ensures some { IfSome result (λ found. signs.now ≡ sign_of found.0 ∷ found.1.now) }
    ensures rank { IfSome result (λ found. found.0 ≢ Join.Or) }
    ensures none { result ≡ None → IsNoFactorJoin signs.now }
{
    match signs {
        [Sign::And, rest @ ..] => Some((Join::And, rest)),
        [Sign::Not, rest @ ..] => Some((Join::Not, rest)),
        _ => None,
    }
}

/// The signs after the first one, if that is `or`.
pub fn term_join(signs: &[Sign]) -> Option<&[Sign]>
    ensures some { IfSome result (λ rest. signs.now ≡ Sign.Or ∷ rest.now) }
    ensures none { result ≡ None → IsNoTermJoin signs.now }
{
    match signs {
        [Sign::Or, rest @ ..] => Some(rest),
        _ => None,
    }
}

/// The signs after the first one, if that closes a parenthesis.
pub fn close(signs: &[Sign]) -> Option<&[Sign]>
    ensures some { IfSome result (λ rest. signs.now ≡ Sign.Close ∷ rest.now) }
    ensures none { result ≡ None → IsNoClose signs.now }
{
    match signs {
        [Sign::Close, rest @ ..] => Some(rest),
        _ => None,
    }
}
