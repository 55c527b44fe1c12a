ghost use Rattle.std.specs.Prelude.{◌≡◌, [], IfOk, slice_index};
ghost use Rattle.chacha_stream.specs.Xored.{xored};

use sse_frames::Items;
use std::alloc::{AllocError, Global};
use std::marker::Model;

/// Bytes that are taken as a whole, seen as the list of them.
#[derive(Drop)]
pub(crate) struct Bytes {
    bytes: Vec<u8>,
}

impl Model for Bytes {
    ghost use Rattle.std.specs.Prelude.{List, ℕ};

    ghost Value = { List ℕ };

    ghost view = { λ b. b.bytes.items };
}

impl Bytes {
    /// No byte. It takes no memory.
    pub(crate) fn none(alloc: Global) -> Bytes
        ensures { result ≡ [] }
    {
        Bytes {
            bytes: Vec::new(alloc),
        }
    }

    /// The same bytes again.
    pub(crate) fn of(alloc: Global, bytes: &[u8]) -> Result<Bytes, AllocError>
        ensures { IfOk result (λ copy. copy ≡ bytes.now) }
    {
        let bytes = Vec::from_slice(alloc, bytes)?;
        Ok(Bytes { bytes })
    }

    /// The bytes.
    pub(crate) fn as_slice(&self) -> &[u8]
        ensures { result.now ≡ self.now }
    {
        self.bytes.as_slice()
    }

    /// XORs a text into the bytes; those behind its end stay as they are.
    pub(crate) fn mask(&mut self, text: &[u8])
        ensures { self.new ≡ xored self.old text.now }
    {
        mask(self.bytes.as_mut_slice(), text);
    }
}

/// XORs a text into bytes; those behind its end stay as they are.
fn mask(bytes: &mut [u8], text: &[u8])
    ensures { bytes.new ≡ xored bytes.old text.now }
{
    let shared = bytes.len().min(text.len());
    for i in 0..shared {
        bytes[i] ^= text[i];
    }
}

/// The same bytes again.
pub(crate) fn copied(alloc: Global, bytes: &[u8]) -> Result<Items<u8>, AllocError>
    ensures { IfOk result (λ copy. copy ≡ bytes.now) }
{
    let mut copy = Items::new(alloc);
    for byte in bytes {
        copy.push(*byte)?;
    }
    Ok(copy)
}

/// The byte at this place, and 0 behind the last.
fn byte_at(bytes: &[u8], place: usize) -> u8
    ensures { result ≡ slice_index bytes.now place }
{
    match bytes.get(place) {
        Some(byte) => *byte,
        None => 0,
    }
}

/// The bytes XORed with a pad; those behind its end stay as they are.
pub(crate) fn masked(alloc: Global, bytes: &[u8], pad: &[u8]) -> Result<Items<u8>, AllocError>
    ensures { IfOk result (λ text. text ≡ xored bytes.now pad.now) }
{
    let mut text = Items::new(alloc);
    for i in 0..bytes.len() {
        text.push(bytes[i] ^ byte_at(pad, i))?;
    }
    Ok(text)
}
