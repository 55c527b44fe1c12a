ghost use Rattle.std.specs.Prelude.{◌≡◌, ℕ, ◌≤◌, [], ◌∷◌, codes, decimal};
ghost use Rattle.std.specs.List.{concat};
ghost use Rattle.sse_outside.specs.Fronts.{TookOrRose};
ghost use Rattle.vault_script.specs.VaultStops.{vault_last_line, vault_status};

use crate::VaultStop;
use crate::body_digits::print_bytes;
use crate::short_line::print_one;
use script_run_texts::{finish, finish_unopened};
use sse_outside::Sink;

// Promise P222 (caller): If a vault's run stops, its status and last line are those of the cause.
//   clauses: status, line, later; assumes: observable devices; not: That the line is whole: a prefix may be printed if a count of the sink rose.
/// Prints the last line of a run that stopped, as far as the sink takes it, and answers the run's status, from 2 to 12.
/// It takes no memory.
pub fn finish_vault<W: Sink>(sink: &mut W, stop: VaultStop) -> u8
    ensures status { result ≡ vault_status stop }
    ensures line { TookOrRose (W.written sink.old) (W.written sink.new) (vault_last_line stop)
        (W.faults sink.old) (W.faults sink.new) (W.shortages sink.old) (W.shortages sink.new) }
    ensures later { W.faults sink.old ≤ W.faults sink.new }
{
    match stop {
        VaultStop::Clash => {
            let _ = print_bytes(sink, b"stopped: clash\n");
            8
        }
        VaultStop::Forged { id } => {
            let _ = print_one(sink, "stopped: forged ", id, "\n");
            12
        }
        VaultStop::Run(stop) => finish(sink, stop),
        VaultStop::Unopened(stop) => finish_unopened(sink, stop),
    }
}
