//! What the programs of both servers share: their words (`asked_by`), where file and connections come from (`Places`), why
//! a service ends early (`Stop`), and the last line (`finish`). It depends on `tcp_service` for connections, on
//! `outside_journal_file` for the file, and on `program_words` for the words; it knows neither lists nor texts.
//! Proved: the words are those of the definition, and status and line name the cause. A service over `Places` is told by
//! what they were asked for, in order (`HasRun` of specs/Places.antt).
//! Not covered: what a real file and socket do, and the lines on standard error (tested by `.ci/served` and `.ci/vault`).
//! Side: server.
#![tactic(auto)]

mod asked;
mod ending;
mod places;
mod stop;
mod system_places;

pub use asked::{Address, Asked, FilePath, asked_by};
pub use ending::{finish, say_line};
pub use places::Places;
pub use stop::{ServiceStop, Stop};
pub use system_places::SystemPlaces;
