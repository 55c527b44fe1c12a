ghost use Rattle.std.specs.Prelude.{◌≡◌, IfOk, codes, map, string_bytes, true, Ok, None};
ghost use Rattle.clap.specs.Words.{app_of, first_of, found_of, rows_of};
ghost use Rattle.program_words.specs.Commands.{count_app, count_at};
ghost use Rattle.program_words.specs.Hyphens as hyphens;
ghost use Rattle.program_words.specs.Modes as asks;

use crate::found::{found_in, own_words};
use crate::hyphen::has_hyphen;
use crate::number::number_within;
use clap::{Arg, ArgMatches, Command};
use std::alloc::{AllocError, Global};

// Promise P30, also here; clauses: count, hyphen
/// How many connections the words behind an address and a file ask the server for: from 1 to 2^32-1, and as many as that where there is
/// no word; none where they aren't right.
///
/// `AllocError` where there is no memory to read them in; words of which one begins with a hyphen are none without any.
pub fn count_of(alloc: Global, words: &[String]) -> Result<Option<u32>, AllocError>
    ensures count { IfOk result (λ count. count ≡ asks.count_of (map (λ word. string_bytes word) words.now)) }
    ensures hyphen { hyphens.has_hyphen (map (λ word. string_bytes word) words.now) ≡ true → result ≡ Ok None }
{
    if has_hyphen(words) {
        return Ok(None);
    }
    match found_in(count_command(alloc)?, words)? {
        Some(matches) => Ok(count_in(&matches)),
        None => Ok(None),
    }
}

/// The server's command.
fn count_command<'a>(alloc: Global) -> Result<Command<'a>, AllocError>
    ensures { IfOk result (λ command. app_of command ≡ count_app) }
{
    own_words(alloc, "sse_served").arg(Arg::new(alloc, "count"))
}

/// The count of the value that was found, or the most that there can be.
fn count_in(matches: &ArgMatches<'_>) -> Option<u32>
    ensures { result ≡ count_at (first_of (codes "count") (rows_of (found_of matches.now))) }
{
    match matches.get_str("count") {
        Some(word) => number_within(word, 1, u32::MAX),
        None => Some(u32::MAX),
    }
}
