/// A side of `duel SEED N`, which has a word of its own.
#[derive(Clone, Copy)]
pub enum GameSide {
    /// Its documents have the words `s` and `l`.
    Left,
    /// Its documents have the words `s` and `r`.
    Right,
}
