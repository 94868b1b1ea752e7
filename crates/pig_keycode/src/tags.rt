//! The bytes that a code is made of.

// The tag of each form, in the order of their ranks.
pub(crate) const NULL: u8 = 0;

pub(crate) const BOOL: u8 = 1;

pub(crate) const INT: u8 = 2;

pub(crate) const LONG: u8 = 3;

pub(crate) const CHARS: u8 = 4;

pub(crate) const BYTES: u8 = 5;

pub(crate) const TUPLE: u8 = 6;

pub(crate) const BAG: u8 = 7;

pub(crate) const LISTED: u8 = 8;

pub(crate) const MAP: u8 = 9;

// What stands before each item of a list, and behind the last.
pub(crate) const ITEM: u8 = 1;

pub(crate) const END: u8 = 0;

// What stands behind a zero byte of a text.
pub(crate) const ESCAPED: u8 = 255;
