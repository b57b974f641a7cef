// The bytes to which the encoding gives a meaning, named as FoundationDB's `design/tuple.md` names
// them. An element's code stands first in its pack.

pub(crate) const NULL_CODE: u8 = 0x00;

pub(crate) const BYTE_STRING_CODE: u8 = 0x01;

pub(crate) const UNICODE_STRING_CODE: u8 = 0x02;

pub(crate) const NESTED_TUPLE_CODE: u8 = 0x05;

// The first code of whole numbers: eight bytes, below zero.
pub(crate) const INT_FIRST_CODE: u8 = 0x0c;

pub(crate) const INT_ZERO_CODE: u8 = 0x14;

// The last code of whole numbers: eight bytes, above zero.
pub(crate) const INT_LAST_CODE: u8 = 0x1c;

pub(crate) const FALSE_CODE: u8 = 0x26;

pub(crate) const TRUE_CODE: u8 = 0x27;

pub(crate) const UUID_CODE: u8 = 0x30;

pub(crate) const VERSIONSTAMP_CODE: u8 = 0x33;

// What ends a string and a nested tuple.
pub(crate) const TERMINATOR: u8 = 0x00;

// What stands behind a 00 that ends nothing.
pub(crate) const ESCAPE_CODE: u8 = 0xff;

// No byte is greater.
pub(crate) const HIGHEST_BYTE: u8 = 0xff;
