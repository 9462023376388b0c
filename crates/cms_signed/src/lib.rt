//! Signed data around a firmware package, whole or without its content (RFC 5652, sections 3, 5.1
//! and 5.2; RFC 4108, section 2.1.5).
//!
//! A content can be larger than memory. So an item may come in pieces, of which the content goes
//! elsewhere and the rest, the frame, is kept. The frame is then read as the item that it would be
//! with the content in its place, the cut.
//!
//! - `read_signed` answers a whole item with the signed data that it is, exactly where the conditions 3
//!   to 18 hold, and with the first of them that fails where one does (`answer`). What it answers shows
//!   the one `Message` of specs/Message whose text the item is. `read_signed_of` does so for a content
//!   of another type, and `read_signed_cut` for each item that a frame and a cut stand for (`answer`).
//! - `Certificates` stay in place in their octets and are seen as the list that these spell. It is an
//!   iterator that reads the next certificate when it is asked for (`next_gives`: `YieldsFirstBy`, and
//!   `IsWhole`: with its octets and those of its signed part). `Certificates::keep` keeps each of them
//!   as its octets (`kept`).
//! - `outline_step` takes the front of a piece, all of one part: it says whether these octets are
//!   content (`part`, `within`), and frame, cut and count are those of all octets that the item has
//!   had, whatever the pieces (`seen`). The octets that it calls content, one after the other, are
//!   the content (`content`). It takes as much of the content as the piece has (`most`), and behind the
//!   content the whole piece (`behind`). A cut stays once it is known (`stays`).
//! - `laws`: of an item the conditions hold exactly where it is the text of a message
//!   (`accepted_items_are_messages`), and that is one (`one_message`). A message of a firmware package
//!   has a cut, and its content stands there (`messages_have_a_cut`). An item has one content at most
//!   (`one_content`) and one outline (`one_outline`). It is its frame with the content put in at the
//!   cut, as far as that has come (`put_together`), and whole where it has come whole (`whole_item`).
//!   Its frame is one that `read_signed_cut` takes (`frame_has_cut`). A version before a content is any
//!   INTEGER (`a_version_is_an_integer`). Conditions on the octets behind encapContentInfo can be asked
//!   of these octets alone, after the others (`tail_goes_on`).
//!
//! `content_types` are the identifiers of contents, for all who name one.
//!
//! Each octet of the frame is looked at once or twice as it comes, but that the heads before the
//! content are read again with each piece until they are whole. The readers take time linear in the
//! octets, but for signed attributes, whose types are sorted, and memory for these alone: 8 octets for
//! each, which has 7 octets at least, and none of it is kept. Going through certificates reads each of
//! them again.
//!
//! Below it stand `der_core`, with elements, identifiers and the table of conditions, `attribute_set`,
//! with the attributes, and `cert_fields`, with the certificates.
//!
//! Limits: the contents of digestAlgorithms and of crls aren't looked at, nor whether certificates stand
//! in the order of DER. A certificate in another form than a SEQUENCE is passed over. A serial number of
//! the signer's certificate is any INTEGER, and a key identifier any octets. There is one signer, by
//! HSS/LMS over SHA-256, and no signature is verified here. Only an item with a content of type
//! firmwarePackage has a cut: every other is all frame. No clause speaks of time or memory. At most 2^20
//! octets stand behind encapContentInfo.
#![tactic(auto)]

mod certificates;
pub mod content_types;
mod cut;
mod gapped;
pub mod laws;
mod outer;
mod outline;
mod sid;
mod signed;
mod signed_data;
mod signer;
mod signer_info;
mod tail;

pub use certificates::Certificates;
pub use outline::{Outline, Part, Taken, outline_step};
pub use signed::{SignedFault, SignedView, read_signed, read_signed_cut, read_signed_of};
