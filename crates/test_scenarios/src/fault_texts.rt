use add_counters::CounterFull;
use client_core::{CommandFault, HistoryFull};
use client_registry::{AddFault, DocFault, DocsFault, SizeFault, UnknownDocument, WordFault, Zero};
use client_replies::ReplyFault;
use index_setup::BuildFault;
use list_packing::HoleInBlock;
use script_documents::LineFault;
use server_core::{Refuse, WalkFault};
use server_tables::{Missing, TableFault};
use sse_frames::FrameFault;
use sse_link::LinkFault;
use sse_outside::{DeviceFault, Failed};
use sse_script::{BadLine, ReadStop, Refusal};
use std::alloc::{AllocError, Global};
use std::test::Fail;
use two_level::{CellFault, ListTooLong};

/// What one fault of each type of a device, a link, a list, a frame and a server prints. All that they print is in clauses.
const OF_THE_SERVER: &str = "\
the device failed
out of memory
the link is cut
a number stands behind a zero, at place 3 from 0
the kind of a cell is 0, 1 or 2, not 7
the label or the number is there already
the label or the number is not there
the body is not valid at byte 17 from 0
the next update frame has number 4
what the token finds is no list
the server's disk failed
";

/// One fault of each type of words and documents.
const OF_DOCUMENTS: &str = "\
an identifier is at least 1, not 0
a word has at most 64 bytes, not 65
word 2 from 0 stands earlier too
at most 1048576 pairs fit, not 1048577
document 5 is there already
there is no document 6
";

/// One fault of each type of a script's line.
const OF_LINES: &str = "\
the script can't be read further
line 8 is not one of a script
word 1 is too long: 65
refused: word 1 is too long: 65
";

/// One fault of each type of a setup.
const OF_SETUPS: &str = "\
a list of 9 identifiers is longer than two levels of blocks can hold
B is 1 to 256, not 257
Q is a power of two from 1 to 4096, not 3
the labels of the words 0 and 1 are equal
";

/// One fault of each type of an addition and a deletion.
const OF_UPDATES: &str = "\
a word has at most 4294967295 additions, and this one had them
the numbers of the words 0 and 2 are equal
word 2 from 0 has had 4294967295 additions
a history has at most 4294967295 update frames, and this one had them
";

fn of_the_server(alloc: Global) -> Result<String, AllocError> {
    let outside = format!(in alloc; "{Failed}\n{}\n{}\n", DeviceFault::NoMemory, LinkFault::Cut)?;
    let stored = format!(in alloc;
        "{}\n{}\n{}\n{Missing}\n",
        HoleInBlock(3),
        CellFault::BadKind(7),
        TableFault::Taken
    )?;
    let answered = format!(in alloc;
        "{}\n{}\n{}\n{}\n",
        FrameFault::BadBody(17),
        Refuse::Number(4),
        WalkFault::BadList,
        ReplyFault::StoreFault
    )?;
    format!(in alloc; "{outside}{stored}{answered}")
}

fn of_documents(alloc: Global) -> Result<String, AllocError> {
    format!(in alloc;
        "{Zero}\n{}\n{}\n{}\n{}\n{}\n",
        WordFault::TooLong(65),
        DocFault::RepeatedWord(2),
        DocsFault::TooManyPairs(1048577),
        AddFault::AlreadyLive(5),
        UnknownDocument(6)
    )
}

fn of_lines(alloc: Global) -> Result<String, AllocError> {
    let refusal = Refusal::TooLong { position: 1, n: 65 };
    format!(in alloc;
        "{}\n{}\n{refusal}\n{}\n",
        ReadStop::Failed,
        BadLine(8),
        LineFault::Refused(refusal)
    )
}

fn of_setups(alloc: Global) -> Result<String, AllocError> {
    let bad_parameter = SizeFault::BadParameter {
        which: 1,
        value: 257,
    };
    let bad_pad = SizeFault::BadParameter { which: 2, value: 3 };
    let label_clash = BuildFault::LabelClash {
        first: 0,
        second: 1,
    };
    format!(in alloc;
        "{}\n{bad_parameter}\n{bad_pad}\n{label_clash}\n",
        ListTooLong(9)
    )
}

fn of_updates(alloc: Global) -> Result<String, AllocError> {
    let number_clash = CommandFault::NumberClash {
        first: 0,
        second: 2,
    };
    format!(in alloc;
        "{CounterFull}\n{number_clash}\n{}\n{HistoryFull}\n",
        CommandFault::CounterFull(2)
    )
}

/// Each fault's line.
#[test]
fn faults_are_printed(rt: HostRuntime) -> Result<(), Fail> {
    let alloc = rt.alloc();
    assert_eq!(rt; of_the_server(alloc)?.as_str(), OF_THE_SERVER);
    assert_eq!(rt; of_documents(alloc)?.as_str(), OF_DOCUMENTS);
    assert_eq!(rt; of_lines(alloc)?.as_str(), OF_LINES);
    assert_eq!(rt; of_setups(alloc)?.as_str(), OF_SETUPS);
    assert_eq!(rt; of_updates(alloc)?.as_str(), OF_UPDATES);
    Ok(())
}
