// Extensions, one after the other.
ghost use Rattle.std.specs.Prelude.{◌≡◌, ◌↔◌, IsTrue, IfOk, is_some, List, [], Some, map, bytes_eq};
ghost use Rattle.std.specs.Iterator.{YieldsFirstBy, item_count};
ghost use Rattle.std.specs.List.{AllByRecursion, IsDistinct, list_any};
ghost use Rattle.attribute_set.specs.Items.{items_of, AreItems};
ghost use Rattle.der_core.specs.Reads.{Reads, Answers};
ghost use Rattle.der_core.specs.Shapes.{listed};
ghost use Rattle.cert_fields.specs.ExtensionTypes.{is_known};
ghost use Rattle.cert_fields.specs.Extensions.{Extension, extensions_text, AreExtensions, StandsFor};
ghost use Rattle.cert_fields.specs.Extensions.{value_of, IsUnderstood};
ghost use Rattle.cert_fields.specs.ExtensionsReading.{boolean_at, value_of_extension, extension_of};
ghost use Rattle.cert_fields.specs.ExtensionsReading.{extension_at, extension_list_of};
ghost use Rattle.cert_fields.specs.ExtensionsView.{extension_view};
ghost use Rattle.cert_fields.specs.View.{part_view};

use crate::constraints::read_type;
use crate::extension_types::is_known;
use attribute_set::have_own_types;
use der_core::{Cursor, Oid, read_bool, tags};
use std::alloc::{AllocError, Global};
use std::marker::Model;

/// An extension (RFC 5280, section 4.2).
#[derive(Clone, Copy, Debug)]
pub struct ExtensionItem<'a> {
    pub kind: Oid,
    pub critical: bool,
    /// What the OCTET STRING holds.
    pub value: &'a [u8],
}

/// Extensions in their order, each read from its octets when it is asked for. A type may stand twice
/// among them. Takes no memory.
#[derive(Drop)]
pub struct ExtensionList<'a> {
    octets: &'a [u8],
}

impl<'a> Model for ExtensionList<'a> {
    ghost use Rattle.std.specs.Prelude.{List};
    ghost use Rattle.attribute_set.specs.Items.{items_of, AreItems};
    ghost use Rattle.cert_fields.specs.Extensions.{Extension};
    ghost use Rattle.cert_fields.specs.ExtensionsReading.{extension_at};

    ghost Value = { List Extension };

    ghost view = { λ e. items_of extension_at e.octets.now };

    ghost invariant = { λ e. AreItems extension_at e.octets.now };
}

impl<'a> ExtensionList<'a> {
    // The octets that they are.
    pub(crate) fn octets(&self) -> &'a [u8]
        ensures items { AreItems extension_at result.now }
        ensures same { items_of extension_at result.now ≡ self.now }
    {
        self.octets
    }

    /// The same extensions, to go through.
    pub fn iter(&self) -> ExtensionList<'a>
        ensures same { result ≡ self.now }
    {
        ExtensionList {
            octets: self.octets,
        }
    }

    // Whether each that is critical is known.
    pub(crate) fn are_understood(&self) -> bool
        ensures { IsTrue result ↔ AllByRecursion IsUnderstood self.now }
    {
        let mut left = self.iter();
        while let Some(one) = left.next() {
            if !is_understood(&one) {
                return false;
            }
        }
        true
    }

    /// Whether any of them is critical, known or not.
    pub fn has_critical(&self) -> bool
        ensures critical { result ≡ list_any (λ e. e.critical) self.now }
    {
        let mut left = self.iter();
        while let Some(one) = left.next() {
            if one.critical {
                return true;
            }
        }
        false
    }

    /// The value of the first extension of this type, which is the contents of an OBJECT IDENTIFIER.
    /// None where there is no such extension.
    pub fn value_of(&self, kind: &[u8]) -> Option<&'a [u8]>
        ensures exact { Answers (λ value. value.now) result (value_of kind.now self.now) }
    {
        let mut left = self.iter();
        while let Some(one) = left.next() {
            if one.kind.octets() == kind {
                return Some(one.value);
            }
        }
        None
    }
}

impl<'a> Iterator for ExtensionList<'a> {
    type Item = ExtensionItem<'a>;

    ghost next_gives = { YieldsFirstBy extension_view (λ extensions. extensions) };

    ghost remaining = { item_count (λ extensions. extensions) };

    fn next(&mut self) -> Option<ExtensionItem<'a>> {
        let mut items = Cursor::new(self.octets);
        let Some(one) = read_extension(&mut items) else {
            return None;
        };
        self.octets = items.rest();
        Some(one)
    }
}

// Whether the extension is known, where it is critical.
fn is_understood(one: &ExtensionItem<'_>) -> bool
    ensures { IsTrue result ↔ IsUnderstood (extension_view one.now) }
{
    !one.critical || is_known(one.kind.octets())
}

// The truth value at the front.
#[tactic(auto, unfolding(crate::specs::ExtensionsReading::boolean_at))]
pub(crate) fn read_boolean(items: &mut Cursor<'_>) -> Option<bool>
    ensures exact { Answers (λ b. (b, items.new)) result (boolean_at items.old) }
{
    read_bool(items.tagged(tags::BOOLEAN)?)
}

// What the one OCTET STRING holds that is left.
#[tactic(auto, unfolding(crate::specs::ExtensionsReading::value_of_extension))]
fn read_value<'a>(rest: &mut Cursor<'a>) -> Option<&'a [u8]>
    ensures exact { Answers (λ value. value.now) result (value_of_extension rest.old) }
{
    let value = rest.tagged(tags::OCTET_STRING)?;
    if rest.at_end() { Some(value) } else { None }
}

// The extension whose contents the octets are.
#[tactic(auto, unfolding(crate::specs::ExtensionsReading::extension_of))]
fn read_parts(contents: &[u8]) -> Option<ExtensionItem<'_>>
    ensures exact { Answers extension_view result (extension_of contents.now) }
{
    let mut parts = Cursor::new(contents);
    let Some(kind) = read_type(&mut parts) else {
        return None;
    };
    let mut critical = false;
    if parts.is_at(tags::BOOLEAN) {
        critical = read_boolean(&mut parts)?;
        if !critical {
            return None;
        }
    }
    let value = read_value(&mut parts)?;
    Some(ExtensionItem {
        kind,
        critical,
        value,
    })
}

// The extension at the front.
#[tactic(auto, unfolding(crate::specs::ExtensionsReading::extension_at))]
fn read_extension<'a>(items: &mut Cursor<'a>) -> Option<ExtensionItem<'a>>
    ensures exact { Answers (λ e. (extension_view e, items.new)) result
        (extension_at items.old) }
{
    let contents = items.tagged(tags::SEQUENCE)?;
    match read_parts(contents) {
        Some(one) => Some(one),
        None => None,
    }
}

// Whether the octets are extensions, one after the other.
fn are_extensions(contents: &[u8]) -> bool
    ensures { result ≡ is_some (listed extension_at contents.now) }
{
    let mut items = Cursor::new(contents);
    while !items.at_end() {
        let Some(_) = read_extension(&mut items) else {
            return false;
        };
    }
    true
}

// The extensions that the octets are, one after the other.
fn read_each(contents: &[u8]) -> Option<ExtensionList<'_>>
    ensures exact { Answers (λ list. list) result (listed extension_at contents.now) }
{
    if are_extensions(contents) {
        Some(ExtensionList { octets: contents })
    } else {
        None
    }
}

// The extensions whose text the octets are.
#[tactic(auto, unfolding(crate::specs::ExtensionsReading::extension_list_of))]
fn read_list(bytes: &[u8]) -> Option<ExtensionList<'_>>
    ensures exact { Answers (λ list. list) result (extension_list_of bytes.now) }
{
    let mut items = Cursor::new(bytes);
    let list = read_each(items.tagged(tags::SEQUENCE)?)?;
    if items.at_end() { Some(list) } else { None }
}

/// The extensions whose text the octets are, all of them: a certificate's, or those of a list of
/// revoked certificates or of its entries (RFC 5280, sections 4.2, 5.2 and 5.3). Takes no memory.
pub fn read_extension_list(bytes: &[u8]) -> Option<ExtensionList<'_>>
    ensures spelled { Reads extensions_text AreExtensions bytes.now result }
    ensures exact { Answers (λ list. list) result (extension_list_of bytes.now) }
{
    read_list(bytes)
}

// No extensions.
fn none<'a>() -> ExtensionList<'a>
    ensures { result ≡ [] }
{
    ExtensionList { octets: b"" }
}

// The extensions that stand in [3] of a certificate, and none where it is absent.
pub(crate) fn read_standing(part: Option<&[u8]>) -> Option<ExtensionList<'_>>
    ensures stands { (all : List Extension) → (result ≡ Some all)
        ↔ StandsFor (part_view part.entry) all }
{
    match part {
        Some(part) => read_extension_list(part),
        None => Some(none()),
    }
}

// Whether no type of the extensions stands twice.
pub(crate) fn have_own_kinds(alloc: Global, extensions: &[u8]) -> Result<bool, AllocError>
    requires { AreItems extension_at extensions.now }
    ensures { IfOk result (λ own. IsTrue own
        ↔ IsDistinct bytes_eq (map (λ e. e.kind) (items_of extension_at extensions.now))) }
{
    have_own_types(alloc, extensions)
}
