// Reading an identifier.
ghost use Rattle.std.specs.Prelude.{◌≡◌, option_map};
ghost use Rattle.der_core.specs.Reads.{Reads, Answers};
ghost use Rattle.package_attrs.specs.Kinds.{kinds_match};
ghost use Rattle.package_attrs.specs.Identifier.{identifier_text, IsIdentifier, view};
ghost use Rattle.package_attrs.specs.Reading.{fields_of, identifier_of};

use crate::name::{read_name, read_stale};
use crate::{Identifier, PackageName, Stale};
use der_core::{Cursor, tags};

// Whether the stale value is of the name's kind.
fn are_alike(name: &PackageName, stale: &Option<Stale>) -> bool
    ensures alike { result ≡ kinds_match name.now stale.now }
{
    match (name, stale) {
        (_, None) => true,
        (PackageName::Preferred { .. }, Some(Stale::Upto(_))) => true,
        (PackageName::Legacy(_), Some(Stale::Legacy(_))) => true,
        (_, Some(_)) => false,
    }
}

// The identifier whose fields the octets are.
#[tactic(auto, unfolding(crate::specs::Reading::fields_of))]
fn read_fields(fields: &[u8]) -> Option<Identifier>
    ensures exact { Answers view result (fields_of fields.now) }
{
    let mut fields = Cursor::new(fields);
    let name = read_name(&mut fields)?;
    let stale = if fields.at_end() {
        None
    } else {
        Some(read_stale(&mut fields)?)
    };
    if fields.at_end() && are_alike(&name, &stale) {
        Some(Identifier { name, stale })
    } else {
        None
    }
}

#[tactic(auto, unfolding(crate::specs::Reading::identifier_of))]
fn read_whole(bytes: &[u8]) -> Option<Identifier>
    ensures exact { Answers view result (identifier_of bytes.now) }
{
    let mut items = Cursor::new(bytes);
    let identifier = read_fields(items.tagged(tags::SEQUENCE)?)?;
    if items.at_end() {
        Some(identifier)
    } else {
        None
    }
}

/// The identifier whose text the octets are, all of them (RFC 4108, section 2.2.3).
pub fn read_identifier(bytes: &[u8]) -> Option<Identifier>
    ensures spelled { Reads identifier_text IsIdentifier bytes.now (option_map view result) }
    ensures exact { Answers view result (identifier_of bytes.now) }
{
    read_whole(bytes)
}
