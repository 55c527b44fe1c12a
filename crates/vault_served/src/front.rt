ghost use Rattle.std.specs.Prelude.{◌≡◌, ◌<◌, IsSome, length};
ghost use Rattle.tcp_service.specs.Disks.{IsSound, StaysClosed};
ghost use Rattle.sse_journal.specs.JournalView.{broken_by};
ghost use Rattle.vault_server.specs.VaultServerView.{IsWithin};
ghost use Rattle.vault_served.specs.Fronts as fronts;
ghost use Rattle.vault_served.specs.Fronts.{IfFramed, front_view};
ghost use Rattle.vault_served.specs.Lasting.{Lasts};
ghost use Rattle.vault_served.specs.Steps.{FrontsDisk, IfWhole, IsFronted};

use sse_outside::Disk;
use tcp_service::Incoming;
use vault_server::{MAX_BODY, VaultAnswer, VaultServer};

/// The frame in front of bytes.
#[derive(Clone, Copy)]
pub(crate) enum Front<'a> {
    /// No whole frame yet.
    Unfinished,
    /// Four bytes that are the length of no body: 0, or more than 65,600.
    OutOfRange,
    /// A frame with this body.
    Framed(&'a [u8]),
}

/// What stood in front of the bytes that were read.
#[derive(Clone, Copy)]
pub(crate) enum InFront {
    /// No whole frame yet.
    Part,
    /// The length of no body.
    Bad,
    /// A frame, which was answered so.
    Whole(VaultAnswer),
}

// Promise P218 (inside): A frame is found in front of bytes exactly if its length is from 1 to 65,600 and its body is there.
//   clauses: front, spelled
/// The frame in front of bytes: four bytes of length, high byte first, and the body.
fn front_of(bytes: &[u8]) -> Front<'_>
    ensures front { front_view result ≡ fronts.front_of bytes.now }
    ensures spelled { IfFramed result bytes.now }
{
    front_in(bytes)
}

/// The same, by the length in front.
fn front_in(bytes: &[u8]) -> Front<'_>
    ensures { front_view result ≡ fronts.front_of bytes.now }
{
    let Some((size, rest)) = bytes.split_first_chunk::<4>() else {
        return Front::Unfinished;
    };
    let size = u32::from_be_bytes(*size) as usize;
    if size == 0 || size > MAX_BODY {
        return Front::OutOfRange;
    }
    body_of(size, rest)
}

/// The body of so many bytes in front.
fn body_of(size: usize, bytes: &[u8]) -> Front<'_>
    ensures { front_view result ≡ fronts.body_of size bytes.now }
{
    match bytes.split_at_checked(size) {
        Some((body, _)) => Front::Framed(body),
        None => Front::Unfinished,
    }
}

/// Has the vault answer the frame in front, and passes it.
pub(crate) fn take_front<D: Disk>(
    server: &mut VaultServer,
    disk: &mut D,
    incoming: &mut Incoming,
) -> InFront
    requires within { IsWithin server.old.journal (D.content disk.old) }
    ensures within { IsWithin server.new.journal (D.content disk.new) }
    ensures fronted { IsFronted incoming.old incoming.new (Lasts D.content D.images server.old disk.old) (Lasts D.content D.images server.new disk.new) server.old.state server.new.state result }
    ensures closed { StaysClosed (IsSome (broken_by server.old.journal)) (IsSome (broken_by server.new.journal)) disk.old disk.new }
    ensures disk { FrontsDisk (IsSound server.old.journal) (IsSound server.new.journal) (D.faults disk.old) (D.faults disk.new) result }
    ensures less { IfWhole result (λ _. length incoming.new < length incoming.old) }
    ensures room { result ≡ InFront.Part → length incoming.new < 1048580 }
{
    let (answer, size) = match front_of(incoming.pending()) {
        Front::Unfinished => return InFront::Part,
        Front::OutOfRange => return InFront::Bad,
        Front::Framed(body) => (server.answer(disk, body), 4 + body.len()),
    };
    incoming.consume(size);
    InFront::Whole(answer)
}
