ghost use Rattle.std.specs.Prelude.{◌≡◌, ◌+◌, ◌^◌, ◌<◌, ◌≤◌, ℕ, List, [], ◌++◌, length, take, drop, slice_range, IfOk, OnErr};
ghost use Rattle.std.specs.Io.KnownBytes.{prepend_known, IsAtEnd};
ghost use Rattle.sse_outside.specs.Causes.{HasCause};

use sse_outside::{Failed, Source};
use std::marker::Model;

/// What was read of a connection and not yet used, in the room for the longest frame that is in range.
///
/// Contracts see it as these bytes.
#[derive(Drop)]
pub struct Incoming {
    bytes: Vec<u8>,
    from: usize,
    to: usize,
}

impl Model for Incoming {
    ghost use Rattle.std.specs.Prelude.{◌≡◌, ◌≤◌, ℕ, List, length, slice_range};

    ghost Value = { List ℕ };

    ghost view = { λ r. slice_range r.bytes.items r.from r.to };

    ghost invariant = { λ r. (r.from ≤ r.to) × (r.to ≤ length r.bytes.items) × (length r.bytes.items ≡ 1048580) };
}

impl Incoming {
    /// Nothing was read yet. The room is that of `Buffers::frame`: 1,048,580 bytes, a length of four and the longest body.
    pub fn new(bytes: Vec<u8>) -> Incoming
        requires { length bytes.items ≡ 1048580 }
        ensures { result ≡ [] }
    {
        Incoming {
            bytes,
            from: 0,
            to: 0,
        }
    }

    /// Nothing is pending.
    pub fn clear(&mut self)
        ensures { self.new ≡ [] }
    {
        self.from = 0;
        self.to = 0;
    }

    /// The bytes that were read and not yet used.
    pub fn pending(&self) -> &[u8]
        ensures { result.now ≡ self.now }
    {
        &self.bytes[self.from..self.to]
    }

    /// The first of them are used. The others stay where they are, so that many frames of one read cost no more than their
    /// bytes.
    pub fn consume(&mut self, count: usize)
        requires { count ≤ length self.old }
        ensures { self.new ≡ drop count self.old }
    {
        self.from += count;
    }

    /// Reads once, as many bytes as there is room for, behind those that are pending, which are fewer than the room has. No
    /// byte is the end of the input.
    pub fn refill<S: Source>(&mut self, source: &mut S) -> Result<usize, Failed>
        requires room { length self.old < 1048580 }
        ensures more { IfOk result (λ n. (read : List ℕ) × (length read ≡ n) × (self.new ≡ self.old ++ read) × (S.remaining source.old ≡ prepend_known read (S.remaining source.new))) }
        ensures end { IfOk result (λ n. n ≡ 0 → IsAtEnd (S.remaining source.new)) }
        ensures handed { IfOk result (λ n. S.handed_out source.new ≡ S.handed_out source.old + n) }
        ensures within { IfOk result (λ n. S.handed_out source.new ≤ 2 ^ 63) }
        ensures err { OnErr result (self.new ≡ self.old) }
        ensures err_source { OnErr result (S.remaining source.new ≡ S.remaining source.old) }
        ensures cause { HasCause (S.faults source.old) (S.faults source.new) result }
    {
        self.to = to_front(&mut self.bytes, self.from, self.to);
        self.from = 0;
        let count = read_behind(&mut self.bytes, self.to, source)?;
        self.to += count;
        Ok(count)
    }
}

/// Moves a range of bytes to the front, and answers how many they are.
fn to_front(bytes: &mut [u8], from: usize, to: usize) -> usize
    requires { (from ≤ to) × (to ≤ length bytes.old) }
    ensures front { take result bytes.new ≡ slice_range bytes.old from to }
    ensures size { length bytes.new ≡ length bytes.old }
    ensures count { result + from ≡ to }
{
    bytes.copy_within(from..to, 0);
    to - from
}

/// Reads behind the first bytes.
fn read_behind<S: Source>(bytes: &mut [u8], held: usize, source: &mut S) -> Result<usize, Failed>
    requires { held < length bytes.old }
    ensures more { IfOk result (λ n. (read : List ℕ) × (length read ≡ n) × (take (held + n) bytes.new ≡ take held bytes.old ++ read) × (S.remaining source.old ≡ prepend_known read (S.remaining source.new))) }
    ensures size { length bytes.new ≡ length bytes.old }
    ensures room { IfOk result (λ n. held + n ≤ length bytes.new) }
    ensures end { IfOk result (λ n. n ≡ 0 → IsAtEnd (S.remaining source.new)) }
    ensures handed { IfOk result (λ n. S.handed_out source.new ≡ S.handed_out source.old + n) }
    ensures within { IfOk result (λ n. S.handed_out source.new ≤ 2 ^ 63) }
    ensures err { OnErr result (take held bytes.new ≡ take held bytes.old) }
    ensures err_source { OnErr result (S.remaining source.new ≡ S.remaining source.old) }
    ensures cause { HasCause (S.faults source.old) (S.faults source.new) result }
{
    let (_, room) = bytes.split_at_mut(held);
    let count = source.read(room)?;
    Ok(count)
}
