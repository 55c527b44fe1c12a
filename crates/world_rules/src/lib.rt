//! The rules of the store in a world of losses, repeats, stops and restarts (`world_model`): what its client sends for a history of several
//! epochs, and what its server takes and answers. It depends on `def_agreement` for the server's answers, on `sse_server` for the
//! frames that a store takes, and on `client_renewal` and `client_records` for what a renewal of the key refuses. It has statements
//! (specs/Promises.antt) and their proofs, and no calls.
//! Proved: after any events the server's records are the first of the history's bodies, each answer is the live documents with the word,
//! a setup or rebuild that is partly there answers no search, and no pad encrypts two texts of all that was ever sent
//! (`store_promised`); a server takes every history without collisions (`history_taken`); where the last change's frames begin
//! (`first_of_last-frames`, `frames-last`), and that it has no collision, and its history no search (`no_last_collision`, `no_search`).
//! Side: client.
#![tactic(auto)]
