/// A call of a link that fails: the sends and receives are counted together, from 0.
#[derive(Clone, Copy)]
pub struct Fail {
    /// The number of the call.
    pub call: u64,
    /// Whether it fails after its work: a frame then reached the server.
    pub delivered: bool,
}
