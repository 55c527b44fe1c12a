ghost use Rattle.std.specs.Prelude.{◌≡◌};
ghost use Rattle.sse_served.specs.Stops.{stop_of_open};

use service_places::ServiceStop;
use sse_server::OpenFault;

/// Why the service ends if the store wasn't started.
pub(crate) fn stop_of(fault: OpenFault) -> ServiceStop
    ensures { result ≡ stop_of_open fault }
{
    match fault {
        OpenFault::DiskFault => ServiceStop::Disk,
        OpenFault::NotAJournal(_) => ServiceStop::NoJournal,
        OpenFault::BadRecord(_) => ServiceStop::NoJournal,
        OpenFault::NoMemory => ServiceStop::Memory,
    }
}
