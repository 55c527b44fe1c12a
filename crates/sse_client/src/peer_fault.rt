ghost use Rattle.std.specs.Prelude.{◌≡◌};
ghost use Rattle.script_run_texts.specs.Stops.{peer_cause};
ghost use Rattle.sse_client.specs.Stops as links;
ghost use Rattle.sse_client.specs.Stops.{cause_of_fault};

use client_replies::ReplyFault;
use script_run_texts::{PeerStop, ReplyStart};
use sse_link::LinkFault;

/// What a fault that was found in these reply bytes means for the run.
pub(crate) fn stop_of_reply(fault: ReplyFault, reply: &[u8]) -> PeerStop
    ensures cause { peer_cause result ≡ cause_of_fault fault reply.now }
    ensures link { result ≡ PeerStop.Link → fault ≡ ReplyFault.StoreFault }
    ensures store { fault ≡ ReplyFault.StoreFault → result ≡ PeerStop.Link }
{
    match fault {
        ReplyFault::Clash { what, place } => PeerStop::Clash { what, place },
        ReplyFault::NoMemory | ReplyFault::OutOfMemory => PeerStop::Memory,
        ReplyFault::StoreFault => PeerStop::Link,
        ReplyFault::BadReply => PeerStop::BadReply(ReplyStart::of(reply)),
    }
}

/// What a fault of the link means for the run.
pub(crate) fn stop_of_link(fault: LinkFault) -> PeerStop
    ensures { result ≡ links.stop_of_link fault }
{
    match fault {
        LinkFault::Cut => PeerStop::Link,
        LinkFault::NoMemory => PeerStop::Memory,
    }
}
