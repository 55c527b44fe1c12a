ghost use Rattle.std.specs.Prelude.{◌≡◌, ◌+◌, ◌*◌, ◌<◌, ◌≤◌, ◌^◌, None, IfOk, IfSome, IsOk};
ghost use Rattle.two_level.specs.Shape.{IsShape};
ghost use Rattle.two_level.specs.ShapeFault.{shape_fault};

use crate::shape_fault::ShapeFault;
use std::marker::Model;

/// The parameters of a layout, within their limits: b numbers in a cell, 1 to 64, and `big` numbers in a block, 1 to
/// 256. Whoever has one need not test them again.
#[derive(Clone, Copy, Debug, PartialEq, Eq)]
pub struct Shape {
    b: u16,
    big: u16,
}

impl Model for Shape {
    ghost use Rattle.two_level.specs.Shape.{Shape as Parameters, IsShape};

    ghost Value = { Parameters };

    ghost view = { λ s. record { b = s.b; big = s.big } };

    ghost invariant = { λ s. IsShape (record { b = s.b; big = s.big }) };

    ghost inverse = { λ s. record { b = s.b; big = s.big } };
}

impl Shape {
    // Promise P77 (caller): A shape's two parameters are within their limits; otherwise the first that isn't is named.
    //   clauses: shape, refused, accepted
    /// The shape of these parameters. Errors, the first that stands: `BadCell(b)` where `b` is outside 1 to 64;
    /// `BadBlock(big)` where `big` is outside 1 to 256.
    pub fn new(b: u64, big: u64) -> Result<Shape, ShapeFault>
        ensures shape { IfOk result (λ shape. shape ≡ record { b = b; big = big }) }
        ensures refused { IfSome (shape_fault (record { b = b; big = big })) (λ fault. result ≡ Err fault) }
        ensures accepted { shape_fault (record { b = b; big = big }) ≡ None → IsOk result }
    {
        if b < 1 || b > 64 {
            return Err(ShapeFault::BadCell(b));
        }
        if big < 1 || big > 256 {
            return Err(ShapeFault::BadBlock(big));
        }
        Ok(Shape {
            b: b as u16,
            big: big as u16,
        })
    }

    /// The shape of parameters that are within their limits.
    pub fn within(b: u16, big: u16) -> Shape
        requires { IsShape (record { b = b; big = big }) }
        ensures { result ≡ record { b = b; big = big } }
    {
        Shape { b, big }
    }

    /// How many numbers a cell has.
    pub fn b(self) -> u16
        ensures b { result ≡ self.b }
        ensures limits { IsShape self }
    {
        self.b
    }

    /// How many numbers a block has.
    pub fn big(self) -> u16
        ensures big { result ≡ self.big }
        ensures limits { IsShape self }
    {
        self.big
    }

    /// The bytes of a cell: its kind byte, and its numbers of 8.
    pub fn cell_size(self) -> usize
        ensures size { result ≡ 1 + 8 * self.b }
        ensures limits { IsShape self }
    {
        1 + 8 * self.b as usize
    }

    /// The bytes of a block: its numbers of 8.
    pub fn block_size(self) -> usize
        ensures size { result ≡ 8 * self.big }
        ensures limits { IsShape self }
    {
        8 * self.big as usize
    }
}
