ghost use Rattle.std.specs.Prelude.{◌≡◌};
ghost use Rattle.vault_served.specs.Stops.{stop_of_open};

use service_places::ServiceStop;
use vault_server::VaultOpenFault;

/// Why the service ends if the vault wasn't started.
pub(crate) fn stop_of(fault: VaultOpenFault) -> ServiceStop
    ensures { result ≡ stop_of_open fault }
{
    match fault {
        VaultOpenFault::DiskFault => ServiceStop::Disk,
        VaultOpenFault::NotAJournal(_) => ServiceStop::NoJournal,
        VaultOpenFault::BadRecord(_) => ServiceStop::NoJournal,
        VaultOpenFault::NoMemory => ServiceStop::Memory,
    }
}
