use crate::numbered_history::NumberedHistory;
use crate::used_keys::UsedKeys;
use client_registry::Docs;

/// How far a script is read: documents are collected until a setup is accepted, and after it come commands.
#[derive(Drop)]
pub enum Stage {
    /// The documents so far; there is no setup yet.
    Collecting(Docs),
    /// The history of the setup and the commands so far.
    Built(NumberedHistory),
}

/// Where the reading of a script stands.
#[derive(Drop)]
pub struct Standing {
    /// How far it is read.
    pub stage: Stage,
    /// The keys of its epochs so far.
    pub used: UsedKeys,
}
