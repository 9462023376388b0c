// Reading a package's type and its dependencies.
ghost use Rattle.der_core.specs.Reads.{Reads, Answers};
ghost use Rattle.package_attrs.specs.Information.{info_text, IsInfo};
ghost use Rattle.package_attrs.specs.ListReading.{dependencies_of, kind_at, info_fields_of, info_of};

use crate::dependencies::read_names;
use crate::{Dependencies, Info};
use der_core::{Cursor, read_u128, tags};

// The dependencies, where any octets are left.
#[tactic(auto, unfolding(crate::specs::ListReading::dependencies_of))]
fn read_dependencies<'a>(rest: &mut Cursor<'a>) -> Option<Dependencies<'a>>
    ensures exact { Answers (λ names. names) result (dependencies_of rest.old) }
{
    if rest.at_end() {
        return Some(Dependencies::none());
    }
    let names = read_names(rest.tagged(tags::SEQUENCE)?)?;
    if rest.at_end() { Some(names) } else { None }
}

// The type at the front.
#[tactic(auto, unfolding(crate::specs::ListReading::kind_at))]
fn read_kind(fields: &mut Cursor<'_>) -> Option<u128>
    ensures exact { Answers (λ kind. (kind, fields.new)) result (kind_at fields.old) }
{
    read_u128(fields.tagged(tags::INTEGER)?)
}

// The type, where it is there, and the dependencies.
#[tactic(auto, unfolding(crate::specs::ListReading::info_fields_of))]
fn read_fields(fields: &[u8]) -> Option<Info<'_>>
    ensures exact { Answers (λ info. info) result (info_fields_of fields.now) }
{
    let mut fields = Cursor::new(fields);
    let mut kind = None;
    if fields.is_at(tags::INTEGER) {
        kind = Some(read_kind(&mut fields)?);
    }
    let dependencies = read_dependencies(&mut fields)?;
    Some(Info { kind, dependencies })
}

#[tactic(auto, unfolding(crate::specs::ListReading::info_of))]
fn read_whole(bytes: &[u8]) -> Option<Info<'_>>
    ensures exact { Answers (λ info. info) result (info_of bytes.now) }
{
    let mut items = Cursor::new(bytes);
    let info = read_fields(items.tagged(tags::SEQUENCE)?)?;
    if items.at_end() { Some(info) } else { None }
}

/// The type and the dependencies whose text the octets are, all of them (RFC 4108, section 2.2.9).
/// Neither need be there; where dependencies are, they are 1 to 8.
pub fn read_info(bytes: &[u8]) -> Option<Info<'_>>
    ensures spelled { Reads info_text IsInfo bytes.now result }
    ensures exact { Answers (λ info. info) result (info_of bytes.now) }
{
    read_whole(bytes)
}
