//! What a made script means: laws, no calls. It depends on `script_made_documents` for the documents and on `def_script_meaning`
//! for what a script means. With it the program needs no test for refusals, and its status is 0 by a clause. The
//! bounds are coarse: a list takes at most a quarter as many blocks as it has identifiers, and each document has 60
//! pairs.
//! Proved: a made script of at most 10,000 documents is carried out to its end, and none of its commands is refused
//! (`made_text-end`).
//! Side: client.
#![tactic(auto)]
