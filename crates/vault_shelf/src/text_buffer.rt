ghost use Rattle.std.specs.Prelude.{◌≡◌, ◌≢◌, ◌≤◌, ◌++◌, [], IfOk, OnErr, OnOk, length, take};
ghost use Rattle.vault_shelf.specs.VaultSessions.{sealed_by};
ghost use Rattle.vault_shelf.specs.VaultTexts.{fetched_text};
ghost use Rattle.keyed_fn.specs.KeyedFn.{keyed_fn};
ghost use Rattle.keyed_fn.specs.VaultFormulas.{tagged_text, vault_pad, vault_tag};
ghost use Rattle.keyed_fn.specs.Xored.{xored};
ghost use Rattle.vault_shelf.specs.OpenedView.{opened_view, text_in};

use keyed_fn::Keyed;
use std::alloc::{AllocError, Global};
use std::marker::Model;
use word_keys::VaultKeys;

/// How long a put's number and its identifier are, in front of the text of a tag.
const FRONT: usize = 16;

/// The longest text that is encrypted or decrypted, in bytes.
const MOST: usize = 65536;

/// What a received text is.
#[derive(Clone, Copy, Debug, PartialEq, Eq)]
pub enum Opened {
    /// Its tag is right, and the buffer has it decrypted.
    Text,
    /// Its tag is right, and it has more than 65,536 bytes.
    TooLong,
    /// Its tag is wrong.
    Forged,
}

/// Memory for one text, with its put's number and its identifier in front, as its tag is made of them. It is used again for
/// each text.
#[derive(Drop)]
pub struct TextBuffer {
    bytes: Vec<u8>,
}

impl Model for TextBuffer {
    ghost use Rattle.std.specs.Prelude.{ℕ, List};

    ghost Value = { List ℕ };

    ghost view = { λ b. b.bytes.items };
}

impl TextBuffer {
    /// No text. It takes no memory.
    pub fn new(alloc: Global) -> TextBuffer
        ensures { result ≡ [] }
    {
        TextBuffer {
            bytes: Vec::new(alloc),
        }
    }

    /// The text, encrypted after [`TextBuffer::seal`] and decrypted after [`TextBuffer::open`].
    pub fn text(&self) -> &[u8]
        ensures { result.now ≡ text_in self.now }
    {
        let front = self.bytes.len().min(FRONT);
        &self.bytes[front..]
    }

    // Promise P203, also here; clauses: text, tag, err
    /// Encrypts a text of at most 65,536 bytes as that of put `v`, and gives its tag, which is of the number, the identifier and the
    /// encrypted text. Without memory no text is left.
    pub fn seal<K: Keyed>(
        &mut self,
        keyed: &K,
        keys: &VaultKeys,
        v: u32,
        id: u64,
        body: &[u8],
    ) -> Result<[u8; 32], AllocError>
        requires { length body.now ≤ 65536 }
        ensures text { OnOk result (text_in self.new ≡ sealed_by (keyed_fn K.prf K.pad) keys.now v body.now) }
        ensures tag { IfOk result (λ tag. tag ≡ vault_tag (keyed_fn K.prf K.pad) keys.now.tags v id (sealed_by (keyed_fn K.prf K.pad) keys.now v body.now)) }
        ensures err { OnErr result (self.new ≡ []) }
    {
        self.fill(v, id, body)?;
        self.xor_pad(keyed, keys, v);
        Ok(keys.tag(keyed, &self.bytes))
    }

    // Promise P204 (caller): A received text is decrypted exactly if its tag is that of its put's number, its identifier and the text.
    //   clauses: fetched, still_sealed, err; assumes: own keys; not: A text of more than 65,536 bytes, which is reported if its tag is right.
    /// Tests the tag of an encrypted text that was received for put `v` and its identifier, and decrypts the text only if it is
    /// right. The tag is tested before the length. A text that isn't decrypted stays encrypted in the buffer. Without memory no text is
    /// left.
    pub fn open<K: Keyed>(
        &mut self,
        keyed: &K,
        keys: &VaultKeys,
        v: u32,
        id: u64,
        tag: &[u8; 32],
        sealed: &[u8],
    ) -> Result<Opened, AllocError>
        ensures fetched { IfOk result (λ opened. opened_view opened (text_in self.new) ≡ fetched_text (keyed_fn K.prf K.pad) keys.now v id tag.now sealed.now) }
        ensures still_sealed { IfOk result (λ opened. opened ≢ Opened.Text → text_in self.new ≡ sealed.now) }
        ensures err { OnErr result (self.new ≡ []) }
    {
        self.fill(v, id, sealed)?;
        if *tag != keys.tag(keyed, &self.bytes) {
            return Ok(Opened::Forged);
        }
        if sealed.len() > MOST {
            return Ok(Opened::TooLong);
        }
        self.xor_pad(keyed, keys, v);
        Ok(Opened::Text)
    }

    /// Puts a number, an identifier and a text there.
    fn fill(&mut self, v: u32, id: u64, text: &[u8]) -> Result<(), AllocError>
        ensures text { OnOk result (self.new ≡ tagged_text v id text.now) }
        ensures err { OnErr result (self.new ≡ []) }
    {
        self.bytes.clear();
        self.bytes.reserve(FRONT + text.len())?;
        self.bytes.extend_from_slice(&u64::from(v).to_be_bytes())?;
        self.bytes.extend_from_slice(&id.to_be_bytes())?;
        self.bytes.extend_from_slice(text)
    }

    /// XORs the pad of put `v` into the text.
    fn xor_pad<K: Keyed>(&mut self, keyed: &K, keys: &VaultKeys, v: u32)
        requires front { 16 ≤ length self.old }
        requires short { length self.old ≤ 65552 }
        ensures { self.new ≡ take 16 self.old ++ xored (text_in self.old) (vault_pad (keyed_fn K.prf K.pad) keys.now.pads v (length (text_in self.old))) }
    {
        keys.seal(keyed, v, &mut self.bytes[FRONT..]);
    }
}
