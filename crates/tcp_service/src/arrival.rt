ghost use Rattle.std.specs.Prelude.{◌≡◌, ◌<◌, length, OnOk};
ghost use Rattle.tcp_service.specs.Arrivals.{IsCame, bytes_to_come};
ghost use Rattle.tcp_service.specs.Faults.{HasSourceCause};

use crate::{ConnEnd, Incoming};
use sse_outside::Source;

/// More bytes after those that are held, which aren't a whole frame, or the end that comes in their place.
pub fn more<I: Source>(incoming: &mut Incoming, source: &mut I) -> Result<(), ConnEnd>
    requires { length incoming.old < 1048580 }
    ensures came { IsCame incoming.old incoming.new (I.remaining source.old) (I.remaining source.new) result }
    ensures less { OnOk result (bytes_to_come incoming.new (I.handed_out source.new) < bytes_to_come incoming.old (I.handed_out source.old)) }
    ensures cause { HasSourceCause (I.faults source.old) (I.faults source.new) result }
{
    match incoming.refill(source) {
        Ok(0) if incoming.pending().is_empty() => Err(ConnEnd::Closed),
        Ok(0) => Err(ConnEnd::CutShort),
        Ok(_) => Ok(()),
        Err(_) => Err(ConnEnd::ReadFault),
    }
}
