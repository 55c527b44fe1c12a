//! The session of a vault's client over any link: `run_script` makes a first run of a script. `key_line` reads it up to its
//! key line, `first_run` begins at a server that expects the first update and keeps the mark of the key, and `run_lines`
//! carries out the lines. A command is refused, or has its record kept, then its frame sent, then its line printed. It
//! depends on `vault_script` for lines and texts, on `vault_shelf` for frames and refusals, on `vault_link` for replies, and
//! on `client_recorder` for records.
//! Proved: the lines pass as turns (`HasRun` of specs/ScriptRuns.antt): each prints what its frame's reply comes to, a text
//! only if its tag is right, or the run stops for the first cause. Over a link that tells an honest server, all that passes
//! is what the simulator makes of the commands' leaks and draws (`PassesHonestly`). If the vault stands as this client
//! left it, each get prints the text of the identifier's last put, or that there is none (`PrintTheirTexts`),
//! and no reply stops the run (`StopsFairly`). If a run stops for a device, that device's fault count rose, and no
//! other's (`KeepsCounts` of specs/Counts.antt).
//! Not here: the last line of a run and its status, and runs that resume, which begin with `ask_next` and `send_again`.
//! Side: client.
#![tactic(auto)]

mod beginning;
mod command;
mod exchange;
mod greeting;
mod judge;
mod line;
mod lines;
mod next_line;
mod printing;
mod script;
mod script_start;
mod tools;
mod turn;

pub use beginning::first_run;
pub use exchange::{ask, send_again};
pub use greeting::{ask_next, greet};
pub use lines::run_lines;
pub use printing::show;
pub use script::run_script;
pub use script_start::key_line;
pub use tools::Tools;
