//! What a server receives and sends, made only from leakage and drawn values: the simulator, as definitions. An item
//! of leakage says what a command shows, a draw is a value that it sends for the first time. A list of facts would
//! leave open whether more shows; a simulator makes the bytes themselves, so what it isn't given can't be in them. Of
//! a command it keeps only what later commands may point to. It depends on frames and shapes: no word, document or
//! key has a type here.
//! Proved: what is simulated of the first commands is the first part of what is simulated (law). That a client sends
//! exactly this is proved in `def_leakage`.
//! Side: server.
#![tactic(auto)]
