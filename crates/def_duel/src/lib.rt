//! A duel: an adversary chooses each command of two histories after it has seen all that passed for one of them.
//! Definitions and laws, no code: what may be chosen, which pairs are taken, what is shown, and what that tells.
//! Proved: if the two histories leak the same in the end, then at each turn what is shown tells nothing but leakage,
//! and the table relabelled for a turn agrees with that of each later one on the names of that turn (laws).
//! Side: client.
#![tactic(auto)]
