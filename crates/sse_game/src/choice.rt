use client_registry::{Docs, Sizes};
use leakage_history::Command;

/// Documents to be set up, and the parameters of their index, within their limits or not.
#[derive(Drop)]
pub struct NewSetup {
    pub docs: Docs,
    pub sizes: Sizes,
}

/// A command of a history, the setup and renewals of the key among them.
#[derive(Drop)]
pub enum Choice {
    /// The setup.
    SetUp(NewSetup),
    /// A command after it.
    Do(Command),
    /// A renewal under this master key.
    Renew([u8; 32]),
}

/// A command for each of two histories.
#[derive(Drop)]
pub struct Pair {
    pub left: Choice,
    pub right: Choice,
}
