/// The parameters of a setup as they are read, within their limits or not.
#[derive(Clone, Copy)]
pub struct Sizes {
    /// b, the numbers in a cell: 1 to 64.
    pub b: u64,
    /// B, the numbers in a block: 1 to 256.
    pub big: u64,
    /// Q, up to multiples of which dummies are added: a power of two from 1 to 4,096.
    pub pad: u64,
}
