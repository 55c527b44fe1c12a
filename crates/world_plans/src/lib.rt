//! The commands that a client's plans refuse are those that the store's rules don't accept: setups, additions, deletions and renewals of
//! the key. It depends on `client_core` for the plans' faults and on `world_rules` for the rules, which know nothing of each other. It
//! has laws, and no calls.
//! Proved: after every history a command is accepted if and only if its plan has no fault (`accepts-setup`, `accepts-add`,
//! `accepts-delete`, `accepts-renewal`).
//! Side: client.
#![tactic(auto)]
