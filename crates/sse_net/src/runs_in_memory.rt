use crate::owner_link::OwnerLink;
use crate::program::net_main;
use client_places::{MemPlaces, Places};
use keyed_fn::Real;
use outside_memory_disk::MemDisk;
use outside_words::CommandLine;
use server_core::Server;
use server_tables::BucketTables;
use sse_link::{Link, LinkFault, SteadyLoopback};
use sse_outside::{SteadySink, SteadySource};
use std::alloc::{AllocError, Global};
use std::str;
use std::test::Fail;

/// The address that the link is at.
const ADDRESS: &str = "server:47310";

/// The path that the disk is at.
const PATH: &str = "client.jrn";

/// The script of examples/first.sse.
const SCRIPT: &[u8] = b"\
key 0000000000000000000000000000000000000000000000000000000000000000
doc 3 a b
doc 9 a
setup 4 4
find a
";

/// The lines of examples/first.out, and what a run leaves.
const DONE: &str = "\
set up 2 words 0 blocks
found 2: 3 9
status 0
disk closed with records
link hung up
";

/// What is printed and left if the file can't be opened: no server is called.
const NO_FILE: &str = "\
stopped: disk
status 6
disk at its path
link at its address
";

/// What is printed and left if the server can't be reached: the file is closed as it was.
const NO_SERVER: &str = "\
stopped: link
status 5
disk closed empty
link at its address
";

/// What is printed and left if the words are wrong: nothing is opened.
const WRONG_WORDS: &str = "\
stopped: words
status 2
disk at its path
link at its address
";

/// A loopback to the server of the owner, whoever that is: the number is for nobody.
impl OwnerLink for SteadyLoopback<Real, BucketTables> {
    ghost use Rattle.std.specs.Prelude.{None};

    ghost sent = { λ _. None };

    fn begin_as(&mut self, _owner: u64) -> Result<(), LinkFault> {
        Ok(())
    }
}

/// The status of the program over any places, and what it printed, with these words after address and path.
fn run<P: Places>(
    alloc: Global,
    places: &mut P,
    address: &str,
    path: &str,
    mode: &[&str],
) -> Result<(u8, String), AllocError>
where
    P::Link: OwnerLink,
{
    let script = SCRIPT.to_vec(alloc)?;
    let mut words = Vec::new(alloc);
    for word in ["sse_net", address, path].iter().chain(mode) {
        words.push(String::from_str(alloc, word)?)?;
    }
    let given = CommandLine::Words(words);
    let mut source = SteadySource::new(script);
    let mut sink = SteadySink::new(alloc);
    let status = net_main(alloc, places, &given, &mut source, &mut sink);
    drop(given);
    drop(source);
    let printed = str::from_utf8(sink.bytes()).unwrap_or("no text\n");
    let printed = String::from_str(alloc, printed)?;
    Ok((status, printed))
}

/// Where the disk is now: closed, with what it holds, or still to be opened.
fn disk_left<L: Link + Drop>(places: &mut MemPlaces<MemDisk, L>) -> &'static str {
    if let Some(disk) = places.closed_disk() {
        if disk.bytes().is_empty() {
            return "closed empty";
        }
        return match disk.bytes().strip_prefix(b"SSEJRNL1") {
            Some([1, ..]) => "closed with records",
            _ => "closed without records",
        };
    }
    match places.open(PATH) {
        Ok(disk) => {
            drop(disk);
            "at its path"
        }
        Err(_) => "gone",
    }
}

/// Where the link is now: hung up, or still to be called.
fn link_left<L: Link + Drop>(places: &mut MemPlaces<MemDisk, L>) -> &'static str {
    if places.hung_up_link().is_some() {
        return "hung up";
    }
    match places.connect(ADDRESS) {
        Ok(link) => {
            drop(link);
            "at its address"
        }
        Err(_) => "gone",
    }
}

/// What the program prints over these places, its status, and where disk and link are at the end.
fn outcome_over<L: OwnerLink + Drop>(
    alloc: Global,
    places: &mut MemPlaces<MemDisk, L>,
    address: &str,
    path: &str,
    mode: &[&str],
) -> Result<String, AllocError> {
    let (status, printed) = run(alloc, places, address, path, mode)?;
    let disk = disk_left(places);
    let link = link_left(places);
    format!(in alloc; "{printed}status {status}\ndisk {disk}\nlink {link}\n")
}

/// The same over places with an empty disk and a link to a server that has taken nothing.
fn outcome(alloc: Global, address: &str, path: &str, mode: &[&str]) -> Result<String, AllocError> {
    let disk_path = String::from_str(alloc, PATH)?;
    let link_address = String::from_str(alloc, ADDRESS)?;
    let disk = MemDisk::new(alloc, Vec::new(alloc));
    let link = SteadyLoopback::new(alloc, Real, Server::new(BucketTables::new(alloc)));
    let mut places = MemPlaces::new(disk_path, disk, link_address, link);
    let outcome = outcome_over(alloc, &mut places, address, path, mode);
    drop(places);
    outcome
}

/// By their own names both are used and given back; by another path no server is called, by another address nothing is kept.
#[test]
fn disk_and_link_are_called_by_their_names(rt: HostRuntime) -> Result<(), Fail> {
    let alloc = rt.alloc();
    assert_eq!(rt; outcome(alloc, ADDRESS, PATH, &["run"])?.as_str(), DONE);
    assert_eq!(rt;
        outcome(alloc, ADDRESS, "other.jrn", &["run"])?.as_str(),
        NO_FILE
    );
    assert_eq!(rt;
        outcome(alloc, "server:47311", PATH, &["run"])?.as_str(),
        NO_SERVER
    );
    Ok(())
}

/// A run as an owner is the same run; a number that is spelt wrong leaves disk and link where they are.
#[test]
fn a_run_as_an_owner(rt: HostRuntime) -> Result<(), Fail> {
    let alloc = rt.alloc();
    assert_eq!(rt;
        outcome(alloc, ADDRESS, PATH, &["as", "3", "run"])?.as_str(),
        DONE
    );
    assert_eq!(rt;
        outcome(alloc, ADDRESS, PATH, &["as", "03", "run"])?.as_str(),
        WRONG_WORDS
    );
    Ok(())
}
