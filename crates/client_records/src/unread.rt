ghost use Rattle.std.specs.Prelude.{◌≡◌, ◌<◌, ◌++◌, ◌∷◌, [], length, IfErr, IfOk, OnErr, OnOk};
ghost use Rattle.std.specs.Int.{w16, w32, w64, to_be_bytes};

use crate::fault::ReadFault;
use std::marker::Model;

/// The bytes of a record that are still to be read, from the left. Contracts see them as their list.
///
/// Each call reads what stands in front; its error is `BadRecord`, and comes exactly where there are too few bytes.
#[derive(Drop)]
pub(crate) struct Unread<'a> {
    bytes: &'a [u8],
}

impl<'a> Model for Unread<'a> {
    ghost use Rattle.std.specs.Prelude.{ℕ, List};

    ghost Value = { List ℕ };

    ghost view = { λ unread. unread.bytes.now };
}

impl<'a> Unread<'a> {
    /// All of these bytes.
    pub(crate) fn new(bytes: &'a [u8]) -> Unread<'a>
        ensures { result ≡ bytes.now }
    {
        Unread { bytes }
    }

    /// One byte.
    pub(crate) fn read_u8(&mut self) -> Result<u8, ReadFault>
        ensures read { IfOk result (λ n. self.old ≡ n ∷ self.new) }
        ensures short { OnErr result (length self.old < 1) }
        ensures cause { IfErr result (λ e. e ≡ ReadFault.BadRecord) }
    {
        match self.bytes.split_first() {
            Some((byte, rest)) => {
                self.bytes = rest;
                Ok(*byte)
            }
            None => Err(ReadFault::BadRecord),
        }
    }

    /// N bytes.
    pub(crate) fn read_array<const N: usize>(&mut self) -> Result<[u8; N], ReadFault>
        ensures read { IfOk result (λ bytes. self.old ≡ bytes ++ self.new) }
        ensures len { IfOk result (λ bytes. length bytes ≡ N) }
        ensures short { OnErr result (length self.old < N) }
        ensures cause { IfErr result (λ e. e ≡ ReadFault.BadRecord) }
    {
        match self.bytes.split_first_chunk::<N>() {
            Some((bytes, rest)) => {
                self.bytes = rest;
                Ok(*bytes)
            }
            None => Err(ReadFault::BadRecord),
        }
    }

    /// A number of two bytes.
    pub(crate) fn read_u16(&mut self) -> Result<u16, ReadFault>
        ensures read { IfOk result (λ n. self.old ≡ to_be_bytes w16 n ++ self.new) }
        ensures short { OnErr result (length self.old < 2) }
        ensures cause { IfErr result (λ e. e ≡ ReadFault.BadRecord) }
    {
        let bytes = self.read_array::<2>()?;
        Ok(u16::from_be_bytes(bytes))
    }

    /// A number of four bytes.
    pub(crate) fn read_u32(&mut self) -> Result<u32, ReadFault>
        ensures read { IfOk result (λ n. self.old ≡ to_be_bytes w32 n ++ self.new) }
        ensures short { OnErr result (length self.old < 4) }
        ensures cause { IfErr result (λ e. e ≡ ReadFault.BadRecord) }
    {
        let bytes = self.read_array::<4>()?;
        Ok(u32::from_be_bytes(bytes))
    }

    /// A number of eight bytes.
    pub(crate) fn read_u64(&mut self) -> Result<u64, ReadFault>
        ensures read { IfOk result (λ n. self.old ≡ to_be_bytes w64 n ++ self.new) }
        ensures short { OnErr result (length self.old < 8) }
        ensures cause { IfErr result (λ e. e ≡ ReadFault.BadRecord) }
    {
        let bytes = self.read_array::<8>()?;
        Ok(u64::from_be_bytes(bytes))
    }

    /// So many bytes.
    pub(crate) fn read_bytes(&mut self, len: usize) -> Result<&'a [u8], ReadFault>
        ensures read { IfOk result (λ bytes. self.old ≡ bytes.now ++ self.new) }
        ensures len { IfOk result (λ bytes. length bytes.now ≡ len) }
        ensures short { OnErr result (length self.old < len) }
        ensures cause { IfErr result (λ e. e ≡ ReadFault.BadRecord) }
    {
        if self.bytes.len() < len {
            return Err(ReadFault::BadRecord);
        }
        let (bytes, rest) = self.bytes.split_at(len);
        self.bytes = rest;
        Ok(bytes)
    }

    /// That none is left; here the error comes exactly where there is one.
    pub(crate) fn read_end(self) -> Result<(), ReadFault>
        ensures end { OnOk result (self.entry ≡ []) }
        ensures more { OnErr result (0 < length self.entry) }
        ensures cause { IfErr result (λ e. e ≡ ReadFault.BadRecord) }
    {
        if self.bytes.is_empty() {
            return Ok(());
        }
        Err(ReadFault::BadRecord)
    }
}
