//! Identifier octets of the elements that are read and written (X.690, section 8.1.2; X.680, section
//! 8.4). Two hexadecimal digits each, here as in `specs/`.

/// A truth value, of class universal, primitive.
pub const BOOLEAN: u8 = 0x01;

/// A whole number, of class universal, primitive.
pub const INTEGER: u8 = 0x02;

/// Any bits, of class universal, primitive.
pub const BIT_STRING: u8 = 0x03;

/// Any octets, of class universal, primitive.
pub const OCTET_STRING: u8 = 0x04;

/// Nothing, of class universal, primitive.
pub const NULL: u8 = 0x05;

/// An object identifier, of class universal, primitive.
pub const OBJECT_IDENTIFIER: u8 = 0x06;

/// One of some numbers, of class universal, primitive.
pub const ENUMERATED: u8 = 0x0a;

/// A text, of class universal, primitive.
pub const UTF8_STRING: u8 = 0x0c;

/// A time with a year of two digits, of class universal, primitive.
pub const UTC_TIME: u8 = 0x17;

/// A time with a year of four digits, of class universal, primitive.
pub const GENERALIZED_TIME: u8 = 0x18;

/// Elements in a fixed order, of class universal, constructed.
pub const SEQUENCE: u8 = 0x30;

/// Elements in any order, of class universal, constructed.
pub const SET: u8 = 0x31;

/// [0] of class context-specific, primitive.
pub const PRIMITIVE_0: u8 = 0x80;

/// [1] of class context-specific, primitive.
pub const PRIMITIVE_1: u8 = 0x81;

/// [2] of class context-specific, primitive.
pub const PRIMITIVE_2: u8 = 0x82;

/// [0] of class context-specific, constructed.
pub const CONSTRUCTED_0: u8 = 0xa0;

/// [1] of class context-specific, constructed.
pub const CONSTRUCTED_1: u8 = 0xa1;

/// [3] of class context-specific, constructed.
pub const CONSTRUCTED_3: u8 = 0xa3;
