//! Histories of equal leakage look the same to a server: laws, no code. A table of values for one of them is
//! relabelled into a table for the other, under which it draws, sends and is answered the same. Only pads of texts
//! that no search opened are shifted, and relabelling back gives the table again; the relabelled table is defined in
//! `def_leakage` (specs/Relabelled.antt). The laws are a crate of their own, so that a change of theirs has few
//! crates proved again.
//! Proved: `draws_relabelled`, `wire_relabelled`, `transcript_relabelled`, `values_kept`, `relabelled_back`,
//! `collision_free_there` and `collision_free_back`; and the order of the words inside documents changes no frame
//! (`wire_reordered`).
//! Side: client.
#![tactic(auto)]
