/// A tag of 16 bytes, as a label or a number, with the position that it is of.
#[derive(Clone, Copy, Debug)]
pub struct Tagged {
    /// The bytes that are compared.
    pub tag: [u8; 16],
    /// Where it stands among the tags as they were given, from 0.
    pub position: u32,
}
