/// Which made script: what the words `gen SEED N` ask for.
#[derive(Clone, Copy)]
pub struct Made {
    /// The seed, from 0 to 999,999.
    pub seed: u32,
    /// How many documents the setup has, from 1 to 10,000.
    pub documents: u32,
}
