//! Elements and values of DER, read exactly (X.690, sections 8, 10 and 11), with times (RFC 5280,
//! section 4.1.2.5) and attributes (RFC 5652, section 5.3), and the conditions of acceptance.
//!
//! A text is a function of the value that it spells, and never the other way round. A reader
//! answers a value exactly where the octets that it is given are the text of that value.
//!
//! - `read_tlv` finds the one element at the front of octets (`found`). Where there is none, it
//!   tells octets that begin an element from those that never do (`fault`).
//! - `read_head` and `read_length` read the head of an element, or its length, without the contents
//!   (`found`), and tell what can go on to begin so from what can't (`fault`).
//! - `Cursor` passes octets element by element: `next` passes any (`element`, `none`), `tagged` and
//!   `whole` only one of a given tag (`element`, `absent`). Where none is passed, it stays.
//!   `Cursor::rest` is what hasn't been passed (`rest`).
//! - `read_u128` answers the number that the contents of an INTEGER spell (`spelled`).
//! - `read_oid` answers an identifier exactly where the contents are one (`found`). The octets of
//!   each `Oid` are such contents (`spelled`), and `Oid::subidentifiers` are the numbers that they
//!   spell (`spelled`).
//! - `split_step` splits a stream, in whatever pieces it comes, into items: SEQUENCE elements, and
//!   all that remains where none begins. Each answer is exact for the octets that the item has had
//!   (`step`), and the answers together give the items of the stream (`stream`). `declared` tells the
//!   length that an item declares.
//! - `split_pieces` collects the items of a whole list of pieces, which are those of the octets one
//!   after the other. That octets have one list of items is the law `one_list_of_items`.
//! - `Octets64::new` keeps at most 64 octets, and `Octets64::some` 1 to 64 (`kept`). Two of them,
//!   like two `Oid`s, are equal exactly where their octets are (`eq`).
//! - `read_bool`, `read_int_octets` and `read_bits` answer what the contents of a BOOLEAN, of an
//!   INTEGER of either sign (as its octets) and of a BIT STRING spell (`spelled`).
//! - `Moment::new` takes a number of fourteen digits exactly where each part is in its range
//!   (`found`). `read_time` answers the moment that a UTCTime (`utc`) or a GeneralizedTime spells
//!   (`generalized`), and none for another tag (`other`). `Time::read` answers the moment with its
//!   form (`found`): a time has one text, while most moments can be written in either form.
//! - `read_decimal_u128` and `read_decimal_u64` answer the number whose decimal text octets are, and
//!   `read_decimal_moment` the moment that fourteen digits are (`spelled`).
//! - `read_attr` answers the attribute whose text an element is (`spelled`), and `Attr::one_value`
//!   its value where there is exactly one (`spelled`, `whole`). The type keeps that values are
//!   elements one after the other (`elements`).
//! - `Condition` is one of the 41 conditions under which a package is accepted. `Condition::new`
//!   takes 1 to 41 and no other number (`found`), and `Condition::error` and `Condition::code` give
//!   the code of RFC 4108 that a failing one is answered with (`error`, `code`).
//! - `specs/Asked` says of conditions in an order that all hold, or that one is the first that fails.
//! - `laws` has what follows from the definitions alone: no element begins another, contents are
//!   the fewest octets, different values have different texts, a text is read as its value, octets
//!   are one list of elements, a stream is split in one way, and its items begin with those that
//!   have ended.
//!
//! Each reader has one more clause, `exact`: its answer is what a function of `specs/Reading`
//! gives. From those functions the shapes of `specs/Shapes` put longer readings together, and their
//! laws in `proofs/Shapes` and `proofs/Components` turn `exact` into `spelled`. Who reads contracts
//! can pass over both.
//!
//! Below it stands std alone. `package_attrs` and every other reader of CMS texts stands above it.
//!
//! Limits: a tag whose low five bits are all ones (the long form of section 8.1.2.4) is malformed.
//! Contents have fewer than 2^32 octets, numbers and subidentifiers are below 2^128, and an
//! identifier has at most 64 octets.
#![tactic(auto)]

mod attribute;
mod bit_string;
mod boolean;
mod condition;
mod cursor;
mod decimal;
mod fault;
mod first_octets;
mod head;
mod integer;
pub mod laws;
mod length;
mod load_error;
mod moment;
mod number;
mod octets;
mod oid;
mod pieces;
mod read_attribute;
mod splitter;
pub mod tags;
mod time;
mod time_value;
mod tlv;

pub use attribute::Attr;
pub use bit_string::read_bits;
pub use boolean::read_bool;
pub use condition::Condition;
pub use cursor::Cursor;
pub use decimal::{read_decimal_moment, read_decimal_u64, read_decimal_u128};
pub use fault::DerFault;
pub use head::{read_head, read_length};
pub use integer::read_int_octets;
pub use load_error::LoadErrorCode;
pub use moment::Moment;
pub use number::read_u128;
pub use octets::Octets64;
pub use oid::{Oid, read_oid};
pub use pieces::split_pieces;
pub use read_attribute::read_attr;
pub use splitter::{Splitter, Step, declared, split_step};
pub use time::read_time;
pub use time_value::{Time, TimeForm};
pub use tlv::{Tlv, read_tlv};
