ghost use Rattle.std.specs.Prelude.{◌≡◌, IfOk};
ghost use Rattle.bool_search.specs.Grammar.{tree_of, tree_by};

use crate::node::Node;
use std::alloc::{AllocError, Global};

/// What joins a factor or a term to those before it.
#[derive(Clone, Copy)]
pub enum Join {
    And,
    Not,
    Or,
}

impl Join {
    /// Both, joined.
    pub fn join(self, alloc: Global, left: Node, right: Node) -> Result<Node, AllocError>
        ensures { IfOk result (λ node. tree_of node ≡ tree_by self (tree_of left) (tree_of right)) }
    {
        let left = Box::new(alloc, left)?;
        let right = Box::new(alloc, right)?;
        Ok(match self {
            Join::And => Node::And(left, right),
            Join::Not => Node::Not(left, right),
            Join::Or => Node::Or(left, right),
        })
    }
}
