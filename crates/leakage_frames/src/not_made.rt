use std::alloc::{AllocError, AllocFailed};

/// Nothing was made of an item: it names a command, a place or a draw that isn't there, or there is no memory for what passes
/// or for what is kept. Which of them it is, `fault_of` and `first_fault` tell.
#[derive(Clone, Copy)]
pub(crate) struct NotMade;

impl From<AllocError> for NotMade {
    fn from(_e: AllocError) -> NotMade {
        NotMade
    }
}

impl<T: Drop> From<AllocFailed<T>> for NotMade {
    fn from(_e: AllocFailed<T>) -> NotMade {
        NotMade
    }
}
