//! What a history sends and what is answered, as definitions: the names of all labels, tags, numbers, tokens and
//! pads, their values under a key, the frames, the replies, and which names a run draws and looks up. It depends on
//! `client_registry` for histories, `two_level` for layouts, `keyed_fn` for key formulas and `sse_frames` for frames.
//! A name holds its word, so no crate of the server depends on this one. Dummies have names of no word, at positions
//! after those of the words, so that every Q has one definition; names are told apart by class, so that a dummy's
//! label is compared with a word's.
//! Proved: what a history sends is in the grammar, no name is drawn twice, and searches change no frame of an update
//! (laws).
//! Side: client.
#![tactic(auto)]
