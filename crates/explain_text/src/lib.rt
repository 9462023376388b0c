//! The lines by which it is explained what a package's path permits; the forms are this project's
//! own, and what is permitted is RFC 6010's (section 3).
//!
//! - `put_path` and `put_verdict` append exactly the lines of a path and of a verdict (`ok`).
//! - `put_grant` appends the lines of what the members of a path let through together (`ok`): for each
//!   content type that one of them names, and for every other type, whether each member has a
//!   deciding entry that says canSource; and for each type of attributes that these entries
//!   constrain, exactly those listed values that every one of them covers.
//! - For want of memory, the one refusal of these, the list stays as it was (`err`).
//! - `one_grant_text` is the law that a grant has one text at most. `lines_tell_what_is_permitted` says
//!   that `allow` stands where `permits` of `constraint_meet` is true of no attributes (`allow`), and
//!   that the values after it are those listed ones with which it is true of one attribute (`values`).
//!   `other_stands_for_the_rest` is the law that the last lines are those of each type that no member
//!   names (`decides`, `sources`).
//!
//! Below it stand `constraint_meet`, with what is permitted, `cert_fields`, with the constraints in
//! place, `package_attrs`, with package identifiers and hardware types, and `report_text`, with the
//! lines of identifiers and conditions.
//!
//! Content types, types of attributes and values are sorted, and looked up in what is sorted: for
//! each content type the lines take a look-up in each member, and then n log n time in the sizes of
//! the entries that decide for it. A listed package identifier is found by its preferred name and
//! version. A value of one hardware type is found by that type; one of several is compared with each
//! listed value that has the type which the fewest have, by a look-up for each type. Memory is linear
//! in the constraints and in the lines: some 90 octets for each entry, and, for one content type at a
//! time, as much for each constrained attribute, 32 for each listed value, and 96 for each preferred
//! name and each hardware type in them. The lines can be as many as the content types times the values
//! of an entry for any content. No clause says what a call costs.
#![tactic(auto)]

mod grant;
mod group;
mod hardware;
mod keys;
mod laws;
mod listed;
mod member;
mod memo;
mod ordered;
mod path;
mod sources;
mod types;
mod values;
mod verdict;
mod versions;

pub use grant::put_grant;
pub use laws::{lines_tell_what_is_permitted, one_grant_text, other_stands_for_the_rest};
pub use path::put_path;
pub use verdict::put_verdict;
