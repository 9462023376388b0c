//! The signed attributes of a firmware package (RFC 4108, section 2.2; RFC 5652, section 11), and
//! the image in its content (RFC 4108, section 2.1.5).
//!
//! - `read_identifier`, `read_targets`, `read_communities` and `read_info` answer exactly where the
//!   octets, all of them, are the text of an identifier, of hardware types, of communities, or of a
//!   package's type and dependencies, and their value is the one that the octets spell (`spelled`).
//!   `read_name`, `read_oid_at` and `read_octets_at` do so for the name, the identifier, or the 1 to
//!   64 octets at the front, whatever follows (`spelled`).
//! - `Targets`, `Communities`, `SerialEntries` and `Dependencies` stay in place as the octets that
//!   were read, and are seen as the lists that these spell. Each is an iterator that reads the next
//!   value when it is asked for (`next_gives`: `YieldsFirst`), so going through one takes time
//!   linear in its octets. `Names` is a list of names in memory of its own.
//! - `read_package` answers the package that attributes describe, and none where they describe none
//!   (`described`). What they must hold for that is said in `specs/Attributes`.
//! - `read_content_type` and `read_message_digest` answer what attributes say of any content, which
//!   need not be a package (`told`).
//! - `identifier_covers` and `targets_cover` tell whether a value that an authority lists covers
//!   another (`covers`); `covers_are_told` is the law that their tests do (`identifiers`,
//!   `targets`).
//! - `image_of` gives the contents where a content is exactly one OCTET STRING, and else the
//!   content (`image`). `blocks_for` is how many blocks of flash an image takes (`blocks`).
//! - `Identifier` holds no name of one kind with a stale value of the other (`alike`).
//! - `one_text_each`, `one_text_of_targets`, `one_text_of_communities` and `one_text_of_info` are
//!   the laws that two values never share a text (`unique`), and that a text is read as its own
//!   value (`read`). `one_description` and `one_image` are the laws that attributes describe one
//!   package at most, and that there is one image in a content.
//!
//! No call takes memory but `Dependencies::to_names` and what clones `Names`: what a stranger sends
//! costs its own octets alone.
//!
//! Each reader of octets or of attributes has one more clause, `exact`: its answer is what a
//! function of `specs/Reading`, `specs/SerialReading`, `specs/ListReading` or
//! `specs/PackageReading` gives. Who reads contracts can pass over it.
//!
//! Below it stand `der_core`, with the DER of which the texts are made, and `attribute_set`, with
//! the attributes. `config_table` keeps names, `package_rules` and `dependency_check` go through
//! the lists, `report_text` prints identifiers, and `fwload_top` reads what a run is given.
//!
//! Narrower than the standard: a legacy name, a legacy stale value and a serial number have 1 to
//! 64 octets, numbers end at 2^128 - 1, and a preferred name with a legacy stale value, or the
//! reverse, is no identifier. A package has at most 8 dependencies (`MOST_DEPENDENCIES`), and an
//! empty list of them is no text, since none are written by leaving the list out. Of the other
//! attributes of RFC 4108 none is read.
#![tactic(auto)]

mod assemble;
pub mod attribute_types;
mod community;
mod content;
mod covers;
mod dependencies;
mod fields;
mod find_attribute;
mod identifier;
mod image;
mod information;
mod laws;
mod name;
mod names;
mod package;
mod read_community;
mod reading;
mod targets;

pub use assemble::read_package;
pub use community::{Communities, Community, SerialEntries, SerialEntry};
pub use content::{read_content_type, read_message_digest};
pub use covers::{covers_are_told, identifier_covers, targets_cover};
pub use dependencies::{Dependencies, MOST_DEPENDENCIES};
pub use fields::{read_octets_at, read_oid_at};
pub use identifier::Identifier;
pub use image::{blocks_for, image_of};
pub use information::read_info;
pub use laws::{
    one_description, one_image, one_text_each, one_text_of_communities, one_text_of_info,
    one_text_of_targets,
};
pub use name::{PackageName, Stale, read_name};
pub use names::Names;
pub use package::{Info, Package};
pub use read_community::read_communities;
pub use reading::read_identifier;
pub use targets::{Targets, read_targets};
