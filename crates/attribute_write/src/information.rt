// Writing a package's type and its dependencies.
ghost use Rattle.std.specs.Prelude.{◌≡◌, ◌++◌, ◌+◌, ◌*◌, ◌≤◌, OnOk, OnErr, IfOk, length};
ghost use Rattle.std.specs.List.{flat_map};
ghost use Rattle.package_attrs.specs.Identifier.{name_text};
ghost use Rattle.package_attrs.specs.Information.{info_text, dependencies_text};

use der_core::tags;
use der_write::{put_tlv, put_u128};
use name_write::put_name;
use package_attrs::PackageName;
use std::alloc::{AllocError, Global};

/// Appends the text of a package's type, where it has one, and of its dependencies (RFC 4108,
/// section 2.2.9), which are 8 at most.
pub fn put_info(
    alloc: Global,
    out: &mut Vec<u8>,
    kind: Option<u128>,
    dependencies: &[PackageName],
) -> Result<(), AllocError>
    requires few { length dependencies.now ≤ 8 }
    ensures ok { OnOk result (out.new.items ≡ out.old.items
        ++ info_text (record { kind = kind; dependencies = dependencies.now })) }
    ensures most { OnOk result (length out.new.items ≤ length out.old.items + 827) }
    ensures err { OnErr result (out.new.items ≡ out.old.items) }
{
    let mut contents = Vec::new(alloc);
    if let Some(kind) = kind {
        put_u128(alloc, &mut contents, kind)?;
    }
    put_dependencies(alloc, &mut contents, dependencies)?;
    put_tlv(alloc, out, tags::SEQUENCE, &contents)
}

// The dependencies, where there are any.
fn put_dependencies(
    alloc: Global,
    out: &mut Vec<u8>,
    names: &[PackageName],
) -> Result<(), AllocError>
    requires few { length names.now ≤ 8 }
    ensures ok { OnOk result (out.new.items ≡ out.old.items ++ dependencies_text names.now) }
    ensures most { OnOk result (length out.new.items ≤ length out.old.items + 798) }
    ensures err { OnErr result (out.new.items ≡ out.old.items) }
{
    if names.is_empty() {
        return Ok(());
    }
    let contents = contents(alloc, names)?;
    put_tlv(alloc, out, tags::SEQUENCE, &contents)
}

// The names one after the other.
fn contents(alloc: Global, names: &[PackageName]) -> Result<Vec<u8>, AllocError>
    ensures ok { IfOk result (λ all. all.items ≡ flat_map name_text names.now) }
    ensures most { IfOk result (λ all. length all.items ≤ 99 * length names.now) }
{
    let mut all = Vec::new(alloc);
    for name in names {
        put_name(alloc, &mut all, name)?;
    }
    Ok(all)
}
