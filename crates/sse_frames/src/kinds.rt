// The first byte of a body.

pub(crate) const HELLO: u8 = 0x01;

pub(crate) const SETUP_BEGIN: u8 = 0x02;

pub(crate) const SETUP_DICT: u8 = 0x03;

pub(crate) const SETUP_ARRAY: u8 = 0x04;

pub(crate) const SETUP_END: u8 = 0x05;

pub(crate) const ADD: u8 = 0x06;

pub(crate) const DELETE: u8 = 0x07;

pub(crate) const SEARCH: u8 = 0x08;

pub(crate) const NEXT: u8 = 0x81;

pub(crate) const TOOK: u8 = 0x82;

pub(crate) const NUMBER: u8 = 0x83;

pub(crate) const CLASH: u8 = 0x84;

pub(crate) const PAGE: u8 = 0x85;

pub(crate) const BAD_LIST: u8 = 0x86;

pub(crate) const NO_MEMORY: u8 = 0x87;

pub(crate) const STORE_FAULT: u8 = 0x88;

pub(crate) const BAD_FRAME: u8 = 0x89;

pub(crate) const OUT_OF_PLACE: u8 = 0x8a;
