/// A connection: what comes in over it, and what goes out.
///
/// The two halves are values of their own, so that a read leaves what was written as it is.
#[derive(Drop)]
pub struct Duplex<S, W> {
    pub source: S,
    pub sink: W,
}
