/// Where a search stands.
#[derive(Clone, Copy)]
pub enum Spot {
    /// At the word's cell, which isn't opened yet.
    Cell,
    /// At the pointer of place `at` in group `top` of its list's pointers, to the list's block of this number.
    Blocks { top: u32, at: u32, number: u32 },
    /// At the addition of this counter.
    Added { c: u64 },
}
