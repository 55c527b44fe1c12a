/// What stands in a cell that has the form of one.
#[derive(Clone, Copy, Debug, PartialEq, Eq)]
pub struct CellRead {
    /// What its numbers are: 0 identifiers, 1 pointers to data blocks, 2 pointers to blocks of pointers.
    pub kind: u8,
    /// How many numbers stand before its zeros.
    pub count: u16,
}
