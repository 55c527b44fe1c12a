/// Why no further connection is served.
#[derive(Clone, Copy, Debug, PartialEq, Eq)]
pub enum ServeFault {
    /// No connection was given: the count of faults of `Conns` rose.
    NoConnection,
    /// The disk kept an update frame from being taken: if it had not failed before, its count of faults rose.
    StoreFault,
}
