ghost use Rattle.std.specs.Prelude.{◌≡◌, ◌≢◌, ◌≤◌, Err, length, take, IfOk, OnErr, Some};
ghost use Rattle.vault_link.specs.Asks.{CountsReply};
ghost use Rattle.vault_link.specs.Loopbacks.{HasReplied, loopback_on, remote_of};
ghost use Rattle.vault_link.specs.Recorded.{exchanges_of};
ghost use Rattle.vault_link.specs.ReplySizes.{IsOneReply, IsVaultFrame};
ghost use Rattle.vault_link.specs.Served.{ArePlain, AreServed, exchanges_from, frames_in};
ghost use Rattle.vault_server.specs.VaultServerView.{IsWithin};

use crate::answering::{answer_into, reply_room};
use crate::counts::faults_after;
use crate::transcript::Transcript;
use crate::{LinkFault, VaultExchange, VaultLink};
use sse_outside::Disk;
use std::alloc::Global;
use std::marker::Model;
use std::snapshot::Snapshot;
use vault_server::VaultServer;

/// A link to a vault in this process with its disk, which keeps all that passes.
///
/// It is never cut. Its count of faults rises only when it hands over the report of a fault of the disk. It is out of memory
/// only before the vault has the frame.
#[derive(Drop)]
pub struct VaultLoopback<D: Disk> {
    server: VaultServer,
    disk: D,
    transcript: Transcript,
    faults: u64,
    /// The vault as it was handed in, which only contracts see.
    began: Snapshot<VaultServer>,
}

impl<D: Disk> Model for VaultLoopback<D> {
    ghost use Rattle.vault_link.specs.Loopbacks.{IsHonest, LoopbackState, loopback_code};
    ghost use Rattle.vault_link.specs.Recorded.{recorded};

    ghost Value = { LoopbackState };

    ghost coded = { loopback_code };

    ghost view = { λ l. record {
      exchanges = recorded l.transcript;
      began = l.began.value.state;
      server = l.server;
      file = D.content l.disk;
      disk_faults = D.faults l.disk;
      faults = l.faults;
    } };

    ghost invariant = { λ l. IsHonest (recorded l.transcript) l.began.value.state l.server (D.content l.disk) };
}

impl<D: Disk> VaultLoopback<D> {
    /// A link to this vault on its disk, over which nothing has passed. Takes no memory.
    pub fn new(alloc: Global, server: VaultServer, disk: D) -> VaultLoopback<D>
        requires within { IsWithin server.journal (D.content disk) }
        ensures { result ≡ loopback_on server (D.content disk) (D.faults disk) }
    {
        let began = Snapshot::of(&server);
        VaultLoopback {
            server,
            disk,
            transcript: Transcript::new(alloc),
            faults: 0,
            began,
        }
    }

    // Promise P214 (caller): Every exchange of a loopback to a vault is honest: the reply is the vault's step, out of memory, or a fault of its disk.
    //   clauses: exchanges, honest, plain; assumes: earlier calls
    /// All that passed, in order. If no reply reports that the vault was out of memory or that its disk failed, the replies are those
    /// of the vault's steps, from what it held before the first frame.
    pub fn transcript(&self) -> &[VaultExchange]
        ensures exchanges { exchanges_of result.now ≡ self.now.exchanges }
        ensures honest { AreServed self.now.began self.now.exchanges self.now.server.state }
        ensures plain { ArePlain self.now.exchanges → self.now.exchanges ≡ exchanges_from self.now.began (frames_in self.now.exchanges) }
    {
        self.transcript.as_slice()
    }

    /// The vault and its disk, as they are now.
    pub fn into_parts(self) -> (VaultServer, D)
        ensures server { result.0 ≡ self.server }
        ensures file { D.content result.1 ≡ self.file }
        ensures faults { D.faults result.1 ≡ self.disk_faults }
        ensures within { IsWithin self.server.journal self.file }
    {
        (self.server, self.disk)
    }
}

impl<D: Disk> VaultLink for VaultLoopback<D> {
    ghost faults = { λ l. l.faults };

    ghost transcript = { λ l. Some l.exchanges };

    ghost remote = { λ l. Some (remote_of l) };

    // Promise P215 (caller): A loopback to a vault is never cut; it reports a disk fault only if the disk's count rose or its journal was broken.
    //   clauses: replied, counts, never_cut, no_memory; fields: HasReplied.exchanges, HasReplied.replies, Replies.answered, Replies.store_fault; assumes: observable devices
    fn ask(&mut self, frame: &[u8], out: &mut [u8]) -> Result<usize, LinkFault>
        requires frame { IsVaultFrame frame.now }
        requires room { 65604 ≤ length out.old }
        ensures reply { IfOk result (λ n. IsOneReply n (take n out.new)) }
        ensures replied { IfOk result (λ n. HasReplied frame.now (take n out.new) self.old self.new) }
        ensures counts { IfOk result (λ n. CountsReply (take n out.new) self.old.faults self.new.faults) }
        ensures never_cut { result ≢ Err LinkFault.Cut }
        ensures no_memory { OnErr result (self.new ≡ self.old) }
        ensures later { self.old.faults ≤ self.new.faults }
    {
        let (_, body) = frame.split_at(4);
        let room = reply_room(&self.server, body);
        let (kept, mut reply) = self.transcript.make_room(frame, room)?;
        answer_into(&mut self.server, &mut self.disk, frame, &mut reply)?;
        let n = reply.len();
        out[..n].copy_from_slice(&reply);
        self.faults = faults_after(self.faults, &reply);
        self.transcript.keep(kept, Some(reply));
        Ok(n)
    }
}
