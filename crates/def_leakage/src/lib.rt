//! What a history leaks, and the values drawn for it: definitions and laws, no code. The leakage of a command depends
//! on it and on those before it; a draw is the value of a name that is used for the first time, or a plaintext under
//! such a value. A setup leaks the lengths of the lists that it sends, not a number of words. A search points to the
//! first search of its word and not to the last, which would chain items to one another.
//! Proved: what the simulator of `sse_simulator` makes of leakage and draws is all that passes between client and
//! server, byte for byte, for every history, keyed function and key (law). `sse_run` carries it as clauses.
//! Side: client.
#![tactic(auto)]
