//! The words of a program's command line, as a value that contracts can name. The network programs use it, and it
//! depends only on std. What the words ask for is in `program_words`.
//! Proved: which words follow the program's name, or why there are none.
//! Not covered: that the program was started with these words.
//! Side: both.
#![tactic(auto)]

ghost use Rattle.std.specs.Prelude.{◌≡◌, drop};

use std::{env, io};

/// What the command line gives.
#[derive(Drop)]
pub enum CommandLine {
    /// Its words, the program's name first.
    Words(Vec<String>),
    /// One of them is no text.
    NoText,
    /// There was no memory for them.
    NoMemory,
}

/// Reads the command line.
pub fn command_line(rt: &HostRuntime) -> CommandLine {
    match env::args(rt) {
        Ok(words) => match words.collect(rt.alloc()) {
            Ok(words) => CommandLine::Words(words),
            Err(_) => CommandLine::NoMemory,
        },
        Err(error) if error.kind() == io::ErrorKind::OutOfMemory => CommandLine::NoMemory,
        Err(_) => CommandLine::NoText,
    }
}

/// The words after the program's name.
pub fn behind_name(words: &[String]) -> &[String]
    ensures { result.now ≡ drop 1 words.now }
{
    if words.is_empty() { words } else { &words[1..] }
}
