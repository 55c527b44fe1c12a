ghost use Rattle.std.specs.Prelude.{◌≡◌, ◌≤◌, ◌↔◌, [], Err, None, Some, length, take, IfOk};
ghost use Rattle.sized_replies.specs.Sizes as sizes;
ghost use Rattle.vault_link.specs.Asks.{CountsReply};
ghost use Rattle.vault_link.specs.Recorded.{exchanges_of};
ghost use Rattle.vault_link.specs.ReplySizes.{IsOneReply, IsVaultFrame};
ghost use Rattle.vault_link.specs.Scripted.{PlaysBack, PlaysOut};

use crate::counts::{faults_after, one_more};
use crate::transcript::Transcript;
use crate::{LinkFault, MAX_REPLY_BODY, VaultExchange, VaultLink};
use sized_replies::size_in_front;
use std::alloc::Global;
use std::marker::Model;

/// A link that takes every frame and plays back replies, whatever they are, in the order of their bytes.
///
/// It is cut where the bytes end, also inside a reply, and the frame is among what was sent. A reply whose length is out of
/// range is its four length bytes alone.
#[derive(Drop)]
pub struct ScriptedVault {
    replies: Vec<u8>,
    at: usize,
    faults: u64,
    transcript: Transcript,
}

impl Model for ScriptedVault {
    ghost use Rattle.std.specs.Prelude.{◌≤◌, drop, vec_len};
    ghost use Rattle.vault_link.specs.Recorded.{recorded};
    ghost use Rattle.vault_link.specs.Scripted.{ScriptState, script_code};

    ghost Value = { ScriptState };

    ghost coded = { script_code };

    ghost view = { λ l. record { exchanges = recorded l.transcript; rest = drop l.at l.replies.items; faults = l.faults } };

    ghost invariant = { λ l. l.at ≤ vec_len l.replies };
}

impl ScriptedVault {
    /// A link that plays back these bytes.
    pub fn new(alloc: Global, replies: Vec<u8>) -> ScriptedVault
        ensures { result ≡ record { exchanges = []; rest = replies.items; faults = 0 } }
    {
        ScriptedVault {
            replies,
            at: 0,
            faults: 0,
            transcript: Transcript::new(alloc),
        }
    }

    /// All that passed, in order.
    pub fn transcript(&self) -> &[VaultExchange]
        ensures { exchanges_of result.now ≡ self.now.exchanges }
    {
        self.transcript.as_slice()
    }
}

impl VaultLink for ScriptedVault {
    ghost faults = { λ l. l.faults };

    ghost transcript = { λ l. Some l.exchanges };

    ghost remote = { λ _. None };

    // Promise P213 (caller): A vault link over made-up replies hands them out reply by reply and is cut exactly where they end.
    //   clauses: plays, cut, no_memory; fields: PlaysBack.size, PlaysBack.reply_is, PlaysBack.rest, PlaysOut.ends; assumes: sizes in bounds
    fn ask(&mut self, frame: &[u8], out: &mut [u8]) -> Result<usize, LinkFault>
        requires frame { IsVaultFrame frame.now }
        requires room { 65604 ≤ length out.old }
        ensures reply { IfOk result (λ n. IsOneReply n (take n out.new)) }
        ensures plays { IfOk result (λ n. PlaysBack frame.now (take n out.new) n self.old self.new) }
        ensures counts { IfOk result (λ n. CountsReply (take n out.new) self.old.faults self.new.faults) }
        ensures cut { result ≡ Err LinkFault.Cut → PlaysOut frame.now self.old self.new }
        ensures no_memory { result ≡ Err LinkFault.NoMemory → self.new ≡ self.old }
        ensures later { self.old.faults ≤ self.new.faults }
    {
        let (_, rest) = self.replies.split_at(self.at);
        let Some(n) = size_in_front(MAX_REPLY_BODY, rest) else {
            self.transcript.push(frame, None)?;
            self.faults = one_more(self.faults);
            return Err(LinkFault::Cut);
        };
        let (reply, _) = rest.split_at(n);
        self.transcript.push(frame, Some(reply))?;
        out[..n].copy_from_slice(reply);
        self.faults = faults_after(self.faults, reply);
        self.at += n;
        Ok(n)
    }
}
