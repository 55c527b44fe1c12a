ghost use Rattle.std.specs.Prelude.{◌≡◌, ◌⊎◌, Err, IfErr, IfOk, Ok, map, option_map, string_bytes};
ghost use Rattle.sse_vault.specs.Asked as asks;
ghost use Rattle.sse_vault.specs.Asked.{asked_view};

use outside_words::{CommandLine, behind_name};
use program_words::disk_mode_of;
use script_run_texts::StopCause;
use std::alloc::{AllocError, Global};

/// What the words of a command line ask for.
#[derive(Clone, Copy)]
pub(crate) enum Asked<'a> {
    /// The run of these words over a vault and a journal in memory.
    InMemory {
        words: &'a [String],
    },
    /// The run of these words over the journal of this path, with the vault at this address: an IP address or a name, a
    /// colon and a port.
    OnDisk {
        address: &'a str,
        path: &'a str,
        words: &'a [String],
    },
    /// A restore from the vault at this address.
    Restore {
        address: &'a str,
    },
}

// Promise P284, also here; clauses: right, wrong
/// What a command line asks for, or why nothing.
///
/// Without memory to read the words in, the answer is that, whatever they are.
pub(crate) fn asked_by(alloc: Global, given: &CommandLine) -> Result<Asked<'_>, StopCause>
    ensures right { IfOk result (λ asked. asks.asked_by given.now ≡ Ok (asked_view asked)) }
    ensures wrong { IfErr result (λ stop. (asks.asked_by given.now ≡ Err stop) ⊎ (stop ≡ StopCause.Memory)) }
    ensures cause { IfErr result (λ stop. (stop ≡ StopCause.Words) ⊎ (stop ≡ StopCause.Memory)) }
{
    match given {
        CommandLine::Words(words) => match asked_of(alloc, behind_name(words)) {
            Ok(Some(asked)) => Ok(asked),
            Ok(None) => Err(StopCause::Words),
            Err(AllocError) => Err(StopCause::Memory),
        },
        CommandLine::NoText => Err(StopCause::Words),
        CommandLine::NoMemory => Err(StopCause::Memory),
    }
}

// Promise P284, also here; clauses: ensures
/// What the words after the program's name ask for; nothing if they aren't right.
fn asked_of(alloc: Global, given: &[String]) -> Result<Option<Asked<'_>>, AllocError>
    ensures { IfOk result (λ asked. option_map asked_view asked ≡ asks.asked_of (map (λ word. string_bytes word) given.now)) }
{
    match given {
        [] => Ok(None),
        [_] => in_memory(alloc, given),
        [address, word] => Ok(restore_at(address.as_str(), word.as_str())),
        [address, path, words @ ..] => on_disk(alloc, address.as_str(), path.as_str(), words),
    }
}

/// A run of these words in memory, if they ask for a run.
fn in_memory(alloc: Global, words: &[String]) -> Result<Option<Asked<'_>>, AllocError>
    ensures { IfOk result (λ asked. option_map asked_view asked ≡ asks.in_memory (map (λ word. string_bytes word) words.now)) }
{
    match disk_mode_of(alloc, words) {
        Ok(Some(_)) => Ok(Some(Asked::InMemory { words })),
        Ok(None) => Ok(None),
        Err(AllocError) => Err(AllocError),
    }
}

/// A run of these words with a server and a file, if they ask for a run.
fn on_disk<'a>(
    alloc: Global,
    address: &'a str,
    path: &'a str,
    words: &'a [String],
) -> Result<Option<Asked<'a>>, AllocError>
    ensures { IfOk result (λ asked. option_map asked_view asked ≡ asks.on_disk address.now path.now (map (λ word. string_bytes word) words.now)) }
{
    match disk_mode_of(alloc, words) {
        Ok(Some(_)) => Ok(Some(Asked::OnDisk {
            address,
            path,
            words,
        })),
        Ok(None) => Ok(None),
        Err(AllocError) => Err(AllocError),
    }
}

/// A restore from this address, if the word asks for one.
fn restore_at<'a>(address: &'a str, word: &str) -> Option<Asked<'a>>
    ensures { option_map asked_view result ≡ asks.restore_at address.now word.now }
{
    match word {
        "restore" => Some(Asked::Restore { address }),
        _ => None,
    }
}
