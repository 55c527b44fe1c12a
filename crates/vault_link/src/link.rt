ghost use Rattle.std.specs.Prelude.{◌≤◌, ℕ, List, length, take, Some, IfOk, IsErrOf};
ghost use Rattle.std.specs.declared.option.Option.{Option};
ghost use Rattle.vault_link.specs.Asks.{CountsReply, HasAsked, IsCut, IsSame};
ghost use Rattle.vault_link.specs.Exchanges.{Exchange};
ghost use Rattle.vault_link.specs.ReplySizes.{IsOneReply, IsVaultFrame};
ghost use Rattle.vault_link.specs.Served.{VaultRemote};

use crate::LinkFault;

/// How many bytes the body of a reply has at most.
pub const MAX_REPLY_BODY: u32 = 65_600;

/// How many bytes `out` has room for in a call of `VaultLink::ask`: those of the longest reply with its length.
pub const REPLY_ROOM: usize = 65_604;

/// What carries a frame to a vault and brings the reply back.
///
/// A link tells contracts its count of faults (`faults`). If it can, it also tells the exchanges so far, in order
/// (`transcript`), and the server at its other end (`remote`). A real connection can't tell these, and then they are `None`.
/// A link that tells the server is honest: each reply is that server's answer, which is the vault's step, or out of memory, or
/// a fault of its disk (`IsAnswered` of specs/Served.antt).
pub trait VaultLink {
    ghost faults: { Self → ℕ };

    ghost transcript: { Self → Option (List Exchange) };

    ghost remote: { Self → Option VaultRemote };

    // Promise P210 (caller): A link to a vault hands over one reply to each frame; if it tells the server, the reply is that server's answer.
    //   clauses: reply, asked; fields: IsOneReply.size, HasAsked.told, HasAsked.served; not: Over a socket the server isn't told.
    // Promise P211 (caller): A vault link's fault count rises at each cut and at each reported fault of the server's disk, and nowhere else.
    //   clauses: counts, cut, no_memory, later; fields: CountsReply.store_fault, CountsReply.steady, IsCut.rose, IsSame.steady; assumes: sizes in bounds
    /// Sends one frame of the grammar, all of its bytes with its four length bytes, and receives the reply to it at the front of
    /// `out`, again with its four length bytes; `read_whole_reply` reads it. The answer is how many bytes it has: 4 to 65,604. A
    /// reply whose length is out of range, which is 1 to 65,600, is given as these four bytes alone.
    ///
    /// After `Cut` the frame was sent and has no reply, or nothing passed; the count of faults rose. `NoMemory` is for the link's
    /// own record only, and after it all that the link tells is as before.
    fn ask(&mut self, frame: &[u8], out: &mut [u8]) -> Result<usize, LinkFault>
        requires frame { IsVaultFrame frame.now }
        requires room { 65604 ≤ length out.old }
        ensures reply { IfOk result (λ n. IsOneReply n (take n out.new)) }
        ensures asked { IfOk result (λ n. HasAsked frame.now (Some (take n out.new)) (transcript self.old) (transcript self.new) (remote self.old) (remote self.new)) }
        ensures counts { IfOk result (λ n. CountsReply (take n out.new) (faults self.old) (faults self.new)) }
        ensures cut { IsErrOf result LinkFault.Cut → IsCut frame.now (transcript self.old) (transcript self.new) (remote self.old) (remote self.new) (faults self.old) (faults self.new) }
        ensures no_memory { IsErrOf result LinkFault.NoMemory → IsSame (transcript self.old) (transcript self.new) (remote self.old) (remote self.new) (faults self.old) (faults self.new) }
        ensures later { faults self.old ≤ faults self.new };
}
