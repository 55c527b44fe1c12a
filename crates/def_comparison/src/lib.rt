//! How two histories are compared: the first command at which their leakages differ, the names whose values a history
//! uses, each once, and the counts of its frames, their bytes and the bytes of its values. Definitions and laws, no
//! code. It is apart from `def_relabelling`, so that calls can cite it without the laws on relabelled tables.
//! Proved: two leakages are the same or differ first at one command; the names, each once, are those that are drawn
//! and then those that are only looked up (laws).
//! Side: client.
#![tactic(auto)]
