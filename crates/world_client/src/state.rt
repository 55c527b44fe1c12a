use client_core::{Behind, Client, Fresh, Ready, Restored};
use client_registry::Word;

/// A client that runs.
#[derive(Drop)]
pub enum State {
    /// It is to be told which frames the server lacks.
    Greeting(Restored),
    /// It has no setup.
    Fresh(Client<Fresh>),
    /// It has nothing to send.
    Resting(Client<Ready>),
    /// It has frames to send, each behind the acknowledgement of the one before.
    Sending(Client<Behind>),
    /// It asks for this word.
    Asking(Client<Ready>, Word),
}

/// Why a client that was answered is gone.
#[derive(Clone, Copy, Debug, PartialEq, Eq)]
pub enum Gone {
    /// The answer is none from which it can go on.
    Unwanted,
    /// There is no memory to go on.
    NoMemory,
}
