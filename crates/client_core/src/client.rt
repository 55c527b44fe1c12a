use std::marker::Model;
use word_keys::MasterKey;

/// A client of the store in the state `S`: `Fresh` has no setup, `Ready` has nothing that the server
/// may lack, `Behind` has unacknowledged frames, `Spent` is terminal. `Recorded` was rebuilt from
/// records: which frames of the last one's command the server has isn't known yet.
#[derive(Drop)]
pub struct Client<S> {
    pub(crate) key: MasterKey,
    pub(crate) state: S,
}

impl<S> Model for Client<S> {
    ghost use Rattle.client_core.specs.States.{ClientOf};

    ghost Value = { ClientOf S };

    ghost view = { λ c. record { key = c.key; state = c.state } };
}

/// The terminal state: a reply was not the acknowledgement that the client expected.
#[derive(Clone, Copy)]
pub struct Spent;
