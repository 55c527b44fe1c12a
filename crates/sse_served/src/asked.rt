ghost use Rattle.std.specs.Prelude.{◌≡◌, ◌⊎◌, ◌<◌, IfErr, IfOk, Ok, Err, length, map, string_bytes};
ghost use Rattle.std.specs.List.Sorted.{IsStrictlyIncreasing};
ghost use Rattle.sse_served.specs.Asked as asks;
ghost use Rattle.sse_served.specs.Asked.{HaveOwners, wanted_view};

use outside_words::{CommandLine, behind_name};
use program_words::owners_of;
use service_places::{Address, FilePath, ServiceStop, Stop, asked_by};
use std::alloc::{AllocError, Global};

/// Whose archives are kept and served.
#[derive(Drop)]
pub(crate) enum Mode {
    /// One archive, for so many connections.
    OneArchive(u32),
    /// An archive for each of the owners with these numbers, which rise.
    Owners(Vec<u64>),
}

/// What the words of a command line ask for.
#[derive(Drop)]
pub(crate) struct Wanted<'a> {
    /// Where to listen.
    pub address: Address<'a>,
    /// The journal's file.
    pub path: FilePath<'a>,
    /// Whose archives.
    pub mode: Mode,
}

// Promise P30, also here; clauses: right, wrong
/// What a command line asks for, or why nothing. After `owners` come the numbers of one to 1,024 owners, which rise.
///
/// Without memory to read the words in, the answer is that, whatever they are.
pub(crate) fn wanted_by(alloc: Global, given: &CommandLine) -> Result<Wanted<'_>, Stop>
    ensures right { IfOk result (λ wanted. asks.wanted_by given.now ≡ Ok (wanted_view wanted)) }
    ensures wrong { IfErr result (λ stop. (asks.wanted_by given.now ≡ Err stop) ⊎ (stop ≡ Stop.Service ServiceStop.Memory)) }
    ensures owners { IfOk result (λ wanted. HaveOwners wanted.mode) }
{
    if let CommandLine::Words(words) = given {
        if let [address, path, first, numbers @ ..] = behind_name(words) {
            if first.as_str() == "owners" {
                return for_owners(alloc, address.as_str(), path.as_str(), numbers);
            }
        }
    }
    match asked_by(alloc, given) {
        Ok(asked) => Ok(Wanted {
            address: asked.address,
            path: asked.path,
            mode: Mode::OneArchive(asked.count),
        }),
        Err(stop) => Err(stop),
    }
}

/// What the numbers of owners ask for, or why nothing.
fn for_owners<'a>(
    alloc: Global,
    address: &'a str,
    path: &'a str,
    numbers: &[String],
) -> Result<Wanted<'a>, Stop>
    ensures right { IfOk result (λ wanted. asks.for_owners address.entry.now path.entry.now (map (λ word. string_bytes word) numbers.now) ≡ Ok (wanted_view wanted)) }
    ensures wrong { IfErr result (λ stop. (asks.for_owners address.entry.now path.entry.now (map (λ word. string_bytes word) numbers.now) ≡ Err stop) ⊎ (stop ≡ Stop.Service ServiceStop.Memory)) }
    ensures owners { IfOk result (λ wanted. HaveOwners wanted.mode) }
{
    match owners_of(alloc, numbers) {
        Ok(Some(numbers)) => Ok(Wanted {
            address: Address::new(address),
            path: FilePath::new(path),
            mode: Mode::Owners(numbers),
        }),
        Ok(None) => Err(Stop::Words),
        Err(AllocError) => Err(Stop::Service(ServiceStop::Memory)),
    }
}
