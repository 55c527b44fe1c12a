ghost use Rattle.std.specs.Prelude.{◌≡◌, IfOk, map, option_map, string_bytes, false, true, Ok, None};
ghost use Rattle.clap.specs.Words.{app_of, found_of, rows_of, rule_of, subcommand_rows_of};
ghost use Rattle.clap.specs.declared.builder.command.Command.TheViews.{out-Command};
ghost use Rattle.program_words.specs.Commands.{local_app, local_mode_at, local_mode_by, made_app, made_at, required};
ghost use Rattle.program_words.specs.Hyphens as hyphens;
ghost use Rattle.program_words.specs.Modes as asks;
ghost use Rattle.program_words.specs.Modes.{local_mode_view};

use crate::disk_mode::DiskMode;
use crate::found::{found_in, one_of_several};
use crate::hyphen::has_hyphen;
use crate::number::number_within;
use clap::{Arg, ArgMatches, Command};
use std::alloc::{AllocError, Global};

/// What the program with client and server in it is to do.
#[derive(Debug, Clone, Copy, PartialEq, Eq)]
pub enum LocalMode {
    /// `run` or `more`: carry out a script.
    Script(DiskMode),
    /// `twin`: compare two scripts by what they leak.
    Twin,
    /// `gen SEED N`: carry out the made script of this seed, from 0 to 999,999, for so many documents, from 1 to 10,000.
    Made(u32, u32),
}

// Promise P104 (caller): Words ask for a made script if and only if they are `gen`, a seed below 1,000,000 and a count from 1 to 10,000.
//   clauses: mode, hyphen; assumes: enough memory
/// The mode that the words after the program's name ask for; none where they aren't right.
///
/// `AllocError` where there is no memory to read them in; words of which one begins with a hyphen are none without any.
pub fn local_mode_of(alloc: Global, words: &[String]) -> Result<Option<LocalMode>, AllocError>
    ensures mode { IfOk result (λ mode. option_map local_mode_view mode ≡ asks.local_mode_of (map (λ word. string_bytes word) words.now)) }
    ensures hyphen { hyphens.has_hyphen (map (λ word. string_bytes word) words.now) ≡ true → result ≡ Ok None }
{
    if has_hyphen(words) {
        return Ok(None);
    }
    match found_in(local_command(alloc)?, words)? {
        Some(matches) => Ok(mode_at(&matches)),
        None => Ok(None),
    }
}

/// The program's command.
fn local_command<'a>(alloc: Global) -> Result<Command<'a>, AllocError>
    ensures { IfOk result (λ command. app_of command ≡ local_app) }
{
    one_of_several(alloc, "sse_local")
        .subcommand(Command::new(alloc, "run"))?
        .subcommand(Command::new(alloc, "more"))?
        .subcommand(Command::new(alloc, "twin"))?
        .subcommand(made_command(alloc)?)
}

/// Its subcommand `gen SEED N`.
fn made_command<'a>(alloc: Global) -> Result<Command<'a>, AllocError>
    ensures app { IfOk result (λ command. app_of command ≡ made_app) }
    ensures own { IfOk result (λ command. (out-Command command).has_globals ≡ false) }
{
    Command::new(alloc, "gen")
        .arg(required(alloc, "seed"))?
        .arg(required(alloc, "documents"))
}

/// A value by its place, which has to be there.
fn required<'a>(alloc: Global, id: &'a str) -> Arg<'a>
    ensures rule { rule_of result ≡ required id.entry.now }
    ensures own { result.global ≡ false }
{
    Arg::new(alloc, id).required(true)
}

/// The mode of the subcommand that was found.
fn mode_at(matches: &ArgMatches<'_>) -> Option<LocalMode>
    ensures { option_map local_mode_view result ≡ local_mode_at (subcommand_rows_of matches.now) }
{
    let (name, values) = matches.subcommand()?;
    mode_by(name, values)
}

/// The mode of a subcommand by its name and its values.
fn mode_by(name: &str, values: &ArgMatches<'_>) -> Option<LocalMode>
    ensures { option_map local_mode_view result ≡ local_mode_by name.now (rows_of (found_of values.now)) }
{
    match name {
        "run" => Some(LocalMode::Script(DiskMode::Run)),
        "more" => Some(LocalMode::Script(DiskMode::More)),
        "twin" => Some(LocalMode::Twin),
        "gen" => made_by(values.get_str("seed"), values.get_str("documents")),
        _ => None,
    }
}

/// The made script of the two values.
fn made_by(seed: Option<&str>, documents: Option<&str>) -> Option<LocalMode>
    ensures { option_map local_mode_view result ≡ made_at (option_map (λ word. word.now) seed.entry) (option_map (λ word. word.now) documents.entry) }
{
    let seed = number_within(seed?, 0, 999_999)?;
    let documents = number_within(documents?, 1, 10_000)?;
    Some(LocalMode::Made(seed, documents))
}
