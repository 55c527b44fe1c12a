ghost use Rattle.std.specs.Prelude.{◌≡◌, ℕ, ◌<◌, ◌≤◌, length, slice_index, IfOk, option_map};
ghost use Rattle.vault_server.specs.VaultFrames.{BodyReply, InVaultReplies, IsBodyReply, IsShortReply};
ghost use Rattle.vault_server.specs.VaultState.{handed};
ghost use Rattle.vault_server.specs.VaultViews.{reply_view};

use crate::VaultReply;
use std::alloc::{AllocError, Global};
use std::marker::Model;

/// What stands in a slot: a tag, and the encrypted text, of at most 65,547 bytes.
#[derive(Drop)]
pub(crate) struct Sealed {
    tag: [u8; 32],
    text: Vec<u8>,
}

impl Model for Sealed {
    ghost use Rattle.std.specs.Prelude.{◌≤◌, vec_len};
    ghost use Rattle.vault_server.specs.VaultState.{Held, held_code};

    ghost Value = { Held };

    ghost coded = { held_code };

    ghost view = { λ s. record { tag = s.tag; sealed = s.text.items } };

    ghost invariant = { λ s. vec_len s.text ≤ 65547 };
}

impl Sealed {
    /// A copy of these.
    pub(crate) fn new(alloc: Global, tag: &[u8; 32], sealed: &[u8]) -> Result<Sealed, AllocError>
        requires { length sealed.now ≤ 65547 }
        ensures { IfOk result (λ held. held ≡ record { tag = tag.now; sealed = sealed.now }) }
    {
        let text = Vec::from_slice(alloc, sealed)?;
        Ok(Sealed { tag: *tag, text })
    }

    /// The reply that hands it out.
    fn reply(&self) -> VaultReply<'_>
        ensures reply { reply_view result ≡ BodyReply self.now.tag self.now.sealed }
        ensures short { length self.now.sealed ≤ 65547 }
        ensures grammar { IsBodyReply self.now.tag self.now.sealed }
    {
        body_reply(&self.tag, self.text.as_slice())
    }
}

/// The reply that hands out a tag and a text.
fn body_reply<'a>(tag: &'a [u8; 32], sealed: &'a [u8]) -> VaultReply<'a>
    requires { length sealed.now ≤ 65547 }
    ensures reply { reply_view result ≡ BodyReply tag.now sealed.now }
    ensures grammar { IsBodyReply tag.now sealed.now }
{
    are_bytes(tag.as_slice(), sealed);
    VaultReply::Body { tag, sealed }
}

/// What these slices hold is below 256, as in any slice of bytes.
fn are_bytes(tag: &[u8], sealed: &[u8])
    ensures tag { (i : ℕ) → slice_index tag.now i < 256 }
    ensures sealed { (i : ℕ) → slice_index sealed.now i < 256 }
{}

/// What is handed out of a slot.
pub(crate) fn reply_of(held: Option<&Sealed>) -> VaultReply<'_>
    ensures reply { reply_view result ≡ handed (option_map (λ held. held.now) held.entry) }
    ensures short { IsShortReply (reply_view result) }
    ensures grammar { InVaultReplies (reply_view result) }
{
    match held {
        None => VaultReply::Absent,
        Some(held) => held.reply(),
    }
}
