ghost use Rattle.std.specs.Prelude.{◌≡◌, ◌↔◌, ◌≤◌, IsTrue};
ghost use Rattle.sse_outside.specs.Causes.{Rose};
ghost use Rattle.vault_link.specs.Asks.{CountsReply};
ghost use Rattle.vault_server.specs.VaultFrames.{StoreFault, vault_reply_bytes};

/// A link's count of faults after a reply: it rises if the reply reports a fault of the server's disk.
pub fn faults_after(faults: u64, reply: &[u8]) -> u64
    ensures counts { CountsReply reply.now faults result }
    ensures later { faults ≤ result }
{
    if is_store_fault(reply) {
        return one_more(faults);
    }
    faults
}

/// Whether the reply reports a fault of the server's disk.
fn is_store_fault(reply: &[u8]) -> bool
    ensures { IsTrue result ↔ (reply.now ≡ vault_reply_bytes StoreFault) }
{
    reply == b"\x00\x00\x00\x01\xc7".as_slice()
}

/// A count after one more, which stands still at the end of its type.
pub fn one_more(count: u64) -> u64
    ensures rose { Rose count result }
    ensures later { count ≤ result }
{
    count.saturating_add(1)
}
