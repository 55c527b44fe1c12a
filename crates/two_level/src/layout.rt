ghost use Rattle.std.specs.Prelude.{◌≡◌, ◌≤◌};
ghost use Rattle.two_level.specs.Plan as layout;
ghost use Rattle.two_level.specs.Planned.{planned};
ghost use Rattle.two_level.specs.Shape.{IsShape};

use crate::planned::Plan;
use crate::shape::Shape;
use crate::too_long::ListTooLong;

// Promise P78 (caller): The layout of a list is the smallest kind that holds it.
//   clauses: ensures; assumes: sizes in bounds
/// How a list of `n` identifiers is laid out in cells of `b` numbers and blocks of `big` numbers: [`Shape::plan`] for
/// parameters that are numbers.
///
/// `n` is at least 1, `b` is 1 to 64, and `big` is 1 to 256. Error: `ListTooLong(n)` exactly where `n` is above
/// `b·big·big`. It takes no memory.
pub fn plan(n: u64, b: u16, big: u16) -> Result<Plan, ListTooLong>
    requires some { 1 ≤ n }
    requires cell { 1 ≤ b }
    requires cell_within { b ≤ 64 }
    requires block { 1 ≤ big }
    requires block_within { big ≤ 256 }
    ensures { result ≡ planned n (layout.plan (record { b = b; big = big }) n) }
{
    Shape::within(b, big).plan(n)
}

impl Shape {
    /// How a list of `n` identifiers, at least 1, is laid out in this shape.
    ///
    /// A list of at most `b` identifiers stands in its cell (kind 0), one of at most `b·big` in blocks under the cell
    /// (kind 1), one of at most `b·big·big` in blocks under pointer blocks (kind 2). Error: `ListTooLong(n)` exactly where
    /// `n` is above `b·big·big`. It takes no memory.
    pub fn plan(self, n: u64) -> Result<Plan, ListTooLong>
        requires { 1 ≤ n }
        ensures plan { result ≡ planned n (layout.plan self n) }
        ensures limits { IsShape self }
    {
        let cell = u64::from(self.b());
        let block = u64::from(self.big());
        if n <= cell {
            return Ok(Plan {
                kind: 0,
                pointer_blocks: 0,
                data_blocks: 0,
            });
        }
        if n > cell * block * block {
            return Err(ListTooLong(n));
        }
        let data_blocks = n.div_ceil(block);
        if n <= cell * block {
            return Ok(Plan {
                kind: 1,
                pointer_blocks: 0,
                data_blocks: data_blocks as u32,
            });
        }
        Ok(Plan {
            kind: 2,
            pointer_blocks: data_blocks.div_ceil(block) as u32,
            data_blocks: data_blocks as u32,
        })
    }
}
