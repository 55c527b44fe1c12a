/// The first byte of the record of a setup.
pub(crate) const SETUP: u8 = 0x14;

/// The first byte of the older record of a setup, which has no Q.
pub(crate) const OLD_SETUP: u8 = 0x11;

/// The first byte of the record of an addition.
pub(crate) const ADD: u8 = 0x12;

/// The first byte of the record of a deletion.
pub(crate) const DELETE: u8 = 0x13;

/// The first byte of the record of a renewal.
pub(crate) const RENEWAL: u8 = 0x15;

/// How many bytes the mark of a key has.
pub(crate) const MARK_LEN: usize = 16;
