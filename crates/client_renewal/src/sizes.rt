ghost use Rattle.std.specs.Prelude.{◌≡◌, ◌+◌, ◌<◌, ◌^◌, None};
ghost use Rattle.std.specs.Int.{div_ceil};
ghost use Rattle.client_registry.specs.Acceptance.{frames_needed, size_refusal};
ghost use Rattle.client_registry.specs.Setup.{setup_with};
ghost use Rattle.client_renewal.specs.Refusals.{full_refusal, refusal_to_send};

use crate::past::Past;
use crate::renewal_fault::{RenewalFault, of_size};
use client_registry::{Docs, Size, size_of};

/// Why these documents aren't set up again after so many update frames, with the parameters of the epochs before: a list or an
/// index that is too large, or too few numbers for the frames. It takes no memory.
pub(crate) fn refusal_by_size(docs: &Docs, past: &Past, frames: u32) -> Option<RenewalFault>
    ensures refusal { result ≡ refusal_to_send frames (setup_with docs.now.documents past.now.b past.now.big past.now.pad) }
    ensures accepted { result ≡ None → size_refusal (setup_with docs.now.documents past.now.b past.now.big past.now.pad) ≡ None }
    ensures numbers { result ≡ None → frames + frames_needed (setup_with docs.now.documents past.now.b past.now.big past.now.pad) < 2 ^ 32 }
{
    match size_of(docs, past.sizes()) {
        Ok(size) => number_refusal(frames, size),
        Err(fault) => Some(of_size(fault)),
    }
}

/// Why a setup of this size has no numbers for its frames after so many.
fn number_refusal(frames: u32, size: Size) -> Option<RenewalFault>
    ensures refusal { result ≡ full_refusal frames (2 + div_ceil size.padded_words 1024 + div_ceil size.padded_blocks 256) }
    ensures numbers { result ≡ None → frames + (2 + div_ceil size.padded_words 1024 + div_ceil size.padded_blocks 256) < 2 ^ 32 }
{
    let needed = 2 + size.padded_words.div_ceil(1024) + size.padded_blocks.div_ceil(256);
    match frames.checked_add(needed) {
        Some(_) => None,
        None => Some(RenewalFault::HistoryFull),
    }
}
