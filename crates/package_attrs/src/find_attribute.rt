// The attribute of a type.
ghost use Rattle.der_core.specs.Reads.{Answers};
ghost use Rattle.package_attrs.specs.PackageReading.{values_of};

use attribute_set::Attributes;

// The values of the first attribute of a type.
pub(crate) fn values_of<'a>(attrs: &Attributes<'a>, kind: &[u8]) -> Option<&'a [u8]>
    ensures exact { Answers (λ values. values.now) result (values_of kind.now attrs.now) }
{
    let mut left = attrs.iter();
    while let Some(attr) = left.next() {
        if attr.kind.octets() == kind {
            return Some(attr.values);
        }
    }
    None
}
