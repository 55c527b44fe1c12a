ghost use Rattle.std.specs.Prelude.{◌≡◌, IfOk, map, option_map, string_bytes, true, Ok, None};
ghost use Rattle.clap.specs.Words.{app_of, subcommand_rows_of};
ghost use Rattle.program_words.specs.Commands.{disk_app, disk_mode_at, disk_mode_by};
ghost use Rattle.program_words.specs.Hyphens as hyphens;
ghost use Rattle.program_words.specs.Modes as asks;
ghost use Rattle.program_words.specs.Modes.{disk_mode_view};

use crate::found::{found_in, one_of_several};
use crate::hyphen::has_hyphen;
use clap::{ArgMatches, Command};
use std::alloc::{AllocError, Global};

/// What a run is to do whose disk keeps the records of its commands.
#[derive(Debug, Clone, Copy, PartialEq, Eq)]
pub enum DiskMode {
    /// `run`: carry out a script from an empty store, and begin a journal on a disk that has no record.
    Run,
    /// `more`: go on from the records that the disk has.
    More,
}

// Promise P33, also here; clauses: mode, hyphen
/// The mode that the words behind an address and a file ask the client for: `run` alone or `more` alone; none where they are any others.
///
/// `AllocError` where there is no memory to read them in; words of which one begins with a hyphen are none without any.
pub fn disk_mode_of(alloc: Global, words: &[String]) -> Result<Option<DiskMode>, AllocError>
    ensures mode { IfOk result (λ mode. option_map disk_mode_view mode ≡ asks.disk_mode_of (map (λ word. string_bytes word) words.now)) }
    ensures hyphen { hyphens.has_hyphen (map (λ word. string_bytes word) words.now) ≡ true → result ≡ Ok None }
{
    if has_hyphen(words) {
        return Ok(None);
    }
    match found_in(disk_command(alloc)?, words)? {
        Some(matches) => Ok(mode_at(&matches)),
        None => Ok(None),
    }
}

/// The client's command.
fn disk_command<'a>(alloc: Global) -> Result<Command<'a>, AllocError>
    ensures { IfOk result (λ command. app_of command ≡ disk_app) }
{
    one_of_several(alloc, "sse_net")
        .subcommand(Command::new(alloc, "run"))?
        .subcommand(Command::new(alloc, "more"))
}

/// The mode of the subcommand that was found.
fn mode_at(matches: &ArgMatches<'_>) -> Option<DiskMode>
    ensures { option_map disk_mode_view result ≡ disk_mode_at (subcommand_rows_of matches.now) }
{
    let (name, _) = matches.subcommand()?;
    mode_by(name)
}

/// The mode of a subcommand by its name.
fn mode_by(name: &str) -> Option<DiskMode>
    ensures { option_map disk_mode_view result ≡ disk_mode_by name.now }
{
    match name {
        "run" => Some(DiskMode::Run),
        "more" => Some(DiskMode::More),
        _ => None,
    }
}
