/// An expression of a query.
#[derive(Drop)]
pub enum Node {
    /// The identifiers of the word of this number.
    Word(u32),
    /// An expression in parentheses.
    Within(Box<Node>),
    /// What both choose.
    And(Box<Node>, Box<Node>),
    /// What the left one chooses and the right one doesn't.
    Not(Box<Node>, Box<Node>),
    /// What one of them chooses.
    Or(Box<Node>, Box<Node>),
}
