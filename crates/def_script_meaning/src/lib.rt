//! What a script means, and what a run of it does: the history of its lines, the lines printed, what passes between
//! client and server, and how it ends. It depends on `sse_script` for lines, `script_documents` for refusals,
//! `sse_model` for what a history sends, `def_link_events` for what passes, and `def_agreement` for honest replies; it
//! names no type of the client's program, whose contracts cite it. A run is defined by recursion over the lines that
//! are left, from any place: the loop's proof is then short, and a resumed session has the same definition. Each line
//! has all its frames exchanged and its output printed before the next begins. Definitions and laws, no calls.
//! Proved: a run that goes line by line comes to what the script means, also one that resumes; two runs in a row are
//! one session (`one_session`), and the simulator makes what any number of sessions in a row send
//! (`sessions_are_simulated`); no two epochs of a script have keys with the same mark (`meaning_differs`); an
//! acknowledged update stops a run only in its printing (`acknowledged_stops_not`; laws).
//! Side: client.
#![tactic(auto)]
