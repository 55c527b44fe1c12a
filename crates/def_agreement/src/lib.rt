//! Joins the two sides: a server that receives the frames of a history answers each search by the identifiers that
//! the history shows. It depends on `sse_model` for what a history sends and on `server_core` for the server's step,
//! which know nothing of each other; a script's meaning and the client cite it. Values are compared within one epoch,
//! since those of two epochs are made under two keys and are never in one table. It has statements
//! (specs/Agreement.antt) and their proofs, and no calls.
//! Proved: for every history without equal compared values, each answer, sorted, is the identifiers of the live
//! documents with the word (`histories_taken`, `server_agrees`, `shown_are_found`).
//! Side: client.
#![tactic(auto)]
