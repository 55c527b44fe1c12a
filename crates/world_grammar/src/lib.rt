//! The frames that a client of a world sends are of the grammar: those of each accepted command, though values of different commands may
//! be equal that have to differ. It depends on `sse_model` for the frames and on `world_rules` for what is accepted. It has laws, and no
//! calls.
//! Proved: after accepted commands of allowed sizes each update frame of their history is of the grammar and has the number of its place
//! (`frame_in_grammar`), and so is the frame of a search (`search_in_grammar`).
//! Side: client.
#![tactic(auto)]
