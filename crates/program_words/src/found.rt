ghost use Rattle.std.specs.Prelude.{◌≡◌, ◌≢◌, [], map, string_bytes, true, IfOk, IfSome, None, Ok};
ghost use Rattle.clap.specs.Words.{HasMatchesOf, app_of, fault_of, is_simple_and_free};
ghost use Rattle.program_words.specs.Commands.{own_words, one_of_several};

use clap::error::ErrorKind;
use clap::{ArgMatches, Command};
use std::alloc::{AllocError, Global};

/// A command that reads words alone: no name of a program in front of them, no `help`.
pub(crate) fn own_words<'a>(alloc: Global, name: &'a str) -> Command<'a>
    ensures { app_of result ≡ own_words name.entry.now }
{
    Command::new(alloc, name)
        .no_binary_name(true)
        .disable_help_flag(true)
        .disable_help_subcommand(true)
}

/// The same, and one of its subcommands is wanted.
pub(crate) fn one_of_several<'a>(alloc: Global, name: &'a str) -> Command<'a>
    ensures { app_of result ≡ one_of_several name.entry.now }
{
    own_words(alloc, name).subcommand_required(true)
}

/// What clap finds in the words by a command of plain arguments; nothing where they aren't right.
pub(crate) fn found_in<'a>(
    command: Command<'a>,
    words: &'a [String],
) -> Result<Option<ArgMatches<'a>>, AllocError>
    requires simple { is_simple_and_free (app_of command) ≡ true }
    ensures right { IfOk result (λ found. IfSome found (λ matches. fault_of (app_of command.entry) (map (λ word. string_bytes word) words.now) ≡ [])) }
    ensures matches { IfOk result (λ found. IfSome found (HasMatchesOf (app_of command.entry) (map (λ word. string_bytes word) words.now))) }
    ensures wrong { result ≡ Ok None → fault_of (app_of command.entry) (map (λ word. string_bytes word) words.now) ≢ [] }
{
    match command.try_get_matches_from(words) {
        Ok(matches) => Ok(Some(matches)),
        Err(error) => match error.kind() {
            ErrorKind::OutOfMemory => Err(AllocError),
            _ => Ok(None),
        },
    }
}
