ghost use Rattle.std.specs.Prelude.{◌≡◌, ◌⊎◌, IfErr, IfOk, Ok, Err, map, option_map, string_bytes};
ghost use Rattle.service_places.specs.Asked as asks;
ghost use Rattle.service_places.specs.Asked.{asked_view};

use crate::{ServiceStop, Stop};
use outside_words::{CommandLine, behind_name};
use program_words::count_of;
use std::alloc::{AllocError, Global};

/// An address to listen at: an IP address or a name, a colon and a port.
#[derive(Clone, Copy)]
pub struct Address<'a> {
    text: &'a str,
}

/// The path of a journal's file.
#[derive(Clone, Copy)]
pub struct FilePath<'a> {
    text: &'a str,
}

/// What the words of a command line ask for.
#[derive(Clone, Copy)]
pub struct Asked<'a> {
    /// Where to listen.
    pub address: Address<'a>,
    /// The journal's file.
    pub path: FilePath<'a>,
    /// How many connections are served.
    pub count: u32,
}

impl<'a> Address<'a> {
    /// The address of this text.
    pub fn new(text: &'a str) -> Address<'a>
        ensures { result.text ≡ text.entry }
    {
        Address { text }
    }

    /// Its text.
    pub fn as_str(self) -> &'a str
        ensures { result ≡ self.entry.text }
    {
        self.text
    }
}

impl<'a> FilePath<'a> {
    /// The path of this text.
    pub fn new(text: &'a str) -> FilePath<'a>
        ensures { result.text ≡ text.entry }
    {
        FilePath { text }
    }

    /// Its text.
    pub fn as_str(self) -> &'a str
        ensures { result ≡ self.entry.text }
    {
        self.text
    }
}

// Promise P30, also here; clauses: right, wrong
// Promise P187, also here; clauses: right, wrong
/// What a command line asks for, or why nothing.
///
/// Without memory to read the words in, the answer is that, whatever they are.
pub fn asked_by(alloc: Global, given: &CommandLine) -> Result<Asked<'_>, Stop>
    ensures right { IfOk result (λ asked. asks.asked_by given.now ≡ Ok (asked_view asked)) }
    ensures wrong { IfErr result (λ stop. (asks.asked_by given.now ≡ Err stop) ⊎ (stop ≡ Stop.Service ServiceStop.Memory)) }
{
    match given {
        CommandLine::Words(words) => match asked_of(alloc, behind_name(words)) {
            Ok(Some(asked)) => Ok(asked),
            Ok(None) => Err(Stop::Words),
            Err(AllocError) => Err(Stop::Service(ServiceStop::Memory)),
        },
        CommandLine::NoText => Err(Stop::Words),
        CommandLine::NoMemory => Err(Stop::Service(ServiceStop::Memory)),
    }
}

// Promise P30, also here; clauses: ensures
// Promise P187, also here; clauses: ensures
/// What the words after the program's name ask for; nothing if they aren't right.
fn asked_of(alloc: Global, words: &[String]) -> Result<Option<Asked<'_>>, AllocError>
    ensures { IfOk result (λ asked. option_map asked_view asked ≡ asks.asked_of (map (λ word. string_bytes word) words.now)) }
{
    match words {
        [address, path, words @ ..] => match count_of(alloc, words) {
            Ok(Some(count)) => Ok(Some(Asked {
                address: Address::new(address.as_str()),
                path: FilePath::new(path.as_str()),
                count,
            })),
            Ok(None) => Ok(None),
            Err(AllocError) => Err(AllocError),
        },
        _ => Ok(None),
    }
}
