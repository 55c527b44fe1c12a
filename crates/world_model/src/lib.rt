//! A client and a server, each with a journal, and what passes between them if frames are lost, repeated or late and either side stops,
//! also inside a call of its disk: what each event makes of the two (specs/Events.antt), and what holds after every list of events.
//! It stands on no other crate: what commands send and what a server takes and answers are rules, which a crate above gives. It has
//! statements (specs/Promises.antt) and their proofs, and no calls.
//! Proved: after any events the server's frames are the first of the client's history, they hold what was reported done, each update
//! frame that was sent is the history's of its number, a client that starts can go on, and each answer is that to the commands before it
//! (`promised`), and its commands are those of events (`are_of_events`); and what some lists of events come to (proofs/Rows.antt).
//! Side: both.
#![tactic(auto)]
