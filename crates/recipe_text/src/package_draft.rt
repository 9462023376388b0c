// What the lines of a package recipe say so far.
ghost use Rattle.std.specs.Prelude.{◌≡◌, ◌≤◌, ◌&&◌, ◌∷◌, [], IsTrue, IfOk, IfSome, IfNone, is_some, not, length};
ghost use Rattle.std.specs.Option.{option_to_list};
ghost use Rattle.packager.specs.PackagePlan.{package_view};
ghost use Rattle.recipe_text.specs.PackageReading.{IsValueOf, are_alike, draft_parts, TakesPackage};
ghost use Rattle.recipe_text.specs.PackageRecipe.{IsPackageFit, IsPackageWhole, IsPackageLine, no_parts, plan_parts};

use crate::cut::{cut_at, is_word};
use crate::oid_word::oid_in;
use crate::package_line::{
    PackageKind, add_group, add_modules, image_in, kind_named, legacy_in, legacy_stale_in,
    preferred_in, upto_in,
};
use crate::place::{add, fill};
use crate::words::{certificate_in, hex64_in};
use attribute_write::NamedCommunity;
use der_core::{Octets64, Oid, read_decimal_u128};
use package_attrs::{Identifier, MOST_DEPENDENCIES, PackageName, Stale};
use packager::PackagePlan;
use std::alloc::{AllocError, Global};

// The most lines of targets, and of certificates.
const TARGETS: usize = 64;

const CERTIFICATES: usize = 8;

// What lines say of a package.
#[derive(Drop)]
pub(crate) struct PackageDraft {
    name: Option<PackageName>,
    stale: Option<Stale>,
    targets: Vec<Oid>,
    communities: Vec<NamedCommunity>,
    kind: Option<u128>,
    dependencies: Vec<PackageName>,
    certificates: Vec<Vec<u8>>,
    signer: Option<Octets64>,
    wrap: bool,
    image: Option<Vec<u8>>,
}

// Whether the name and the stale value may stand together, where both are there.
fn are_alike(name: &Option<PackageName>, stale: &Option<Stale>) -> bool
    ensures { result ≡ are_alike name.now stale.now }
{
    match (name, stale) {
        (Some(PackageName::Preferred { .. }), Some(Stale::Legacy(_))) => false,
        (Some(PackageName::Legacy(_)), Some(Stale::Upto(_))) => false,
        _ => true,
    }
}

impl PackageDraft {
    // That no line has been read.
    pub(crate) fn new(alloc: Global) -> PackageDraft
        ensures none { draft_parts result ≡ no_parts }
    {
        PackageDraft {
            name: None,
            stale: None,
            targets: Vec::new(alloc),
            communities: Vec::new(alloc),
            kind: None,
            dependencies: Vec::new(alloc),
            certificates: Vec::new(alloc),
            signer: None,
            wrap: false,
            image: None,
        }
    }

    // Takes what one more line says, and says whether it may stand there.
    pub(crate) fn take(&mut self, alloc: Global, line: &[u8]) -> Result<bool, AllocError>
        requires fit { IsPackageFit (draft_parts self.old) }
        ensures takes { IfOk result (TakesPackage (IsPackageLine line.now) self.old self.new) }
    {
        if is_word(line, b"wrap") {
            return Ok(self.take_wrap());
        }
        let Some((name, text)) = cut_at(line, b' ') else {
            return Ok(false);
        };
        let Some(kind) = kind_named(name) else {
            return Ok(false);
        };
        self.take_value(alloc, kind, text)
    }

    // The same of a line of this kind, with this text behind its first word.
    fn take_value(
        &mut self,
        alloc: Global,
        kind: PackageKind,
        text: &[u8],
    ) -> Result<bool, AllocError>
        requires fit { IsPackageFit (draft_parts self.old) }
        ensures takes { IfOk result (TakesPackage (IsValueOf kind text.now) self.old self.new) }
    {
        match kind {
            PackageKind::Package => Ok(self.take_name(preferred_in(alloc, text)?)),
            PackageKind::Legacy => Ok(self.take_name(legacy_in(alloc, text)?)),
            PackageKind::Stale => Ok(self.take_stale(upto_in(text))),
            PackageKind::LegacyStale => Ok(self.take_stale(legacy_stale_in(alloc, text)?)),
            PackageKind::Target => add(&mut self.targets, TARGETS, oid_in(alloc, text)?),
            PackageKind::Community => add_group(alloc, &mut self.communities, text),
            PackageKind::Module => add_modules(alloc, &mut self.communities, text),
            PackageKind::Type => Ok(fill(&mut self.kind, read_decimal_u128(text))),
            PackageKind::Depends => {
                add(
                    &mut self.dependencies,
                    MOST_DEPENDENCIES,
                    preferred_in(alloc, text)?,
                )
            }
            PackageKind::DependsLegacy => {
                add(
                    &mut self.dependencies,
                    MOST_DEPENDENCIES,
                    legacy_in(alloc, text)?,
                )
            }
            PackageKind::Certificate => {
                add(
                    &mut self.certificates,
                    CERTIFICATES,
                    certificate_in(alloc, text)?,
                )
            }
            PackageKind::Signer => Ok(fill(&mut self.signer, hex64_in(alloc, text)?)),
            PackageKind::Wrap => Ok(false),
            PackageKind::Image => Ok(fill(&mut self.image, image_in(alloc, text)?)),
        }
    }

    // Takes a name, where it is there and none was taken, and it goes with the stale value.
    fn take_name(&mut self, name: Option<PackageName>) -> bool
        ensures fills { result ≡ (are_alike name self.old.stale
            && (not (is_some self.old.name) && is_some name)) }
        ensures filled { IsTrue result → draft_parts self.new
            ≡ record (draft_parts self.old) { names = option_to_list name } }
    {
        are_alike(&name, &self.stale) && fill(&mut self.name, name)
    }

    // Takes a stale value, where it is there and none was taken, and it goes with the name.
    fn take_stale(&mut self, stale: Option<Stale>) -> bool
        ensures fills { result ≡ (are_alike self.old.name stale
            && (not (is_some self.old.stale) && is_some stale)) }
        ensures filled { IsTrue result → draft_parts self.new
            ≡ record (draft_parts self.old) { stales = option_to_list stale } }
    {
        are_alike(&self.name, &stale) && fill(&mut self.stale, stale)
    }

    // Takes that the image stands in an OCTET STRING, where it was not said yet.
    fn take_wrap(&mut self) -> bool
        ensures fills { result ≡ not self.old.wrap }
        ensures filled { IsTrue result → draft_parts self.new
            ≡ record (draft_parts self.old) { wraps = tt ∷ [] } }
    {
        let is_first = !self.wrap;
        self.wrap = true;
        is_first
    }

    // What the package is to say. None where a needed line is missing.
    pub(crate) fn plan(self) -> Option<PackagePlan>
        requires fit { IsPackageFit (draft_parts self) }
        ensures whole { IfSome result (λ plan. draft_parts self ≡ plan_parts (package_view plan)) }
        ensures some { IfSome result (λ plan. 1 ≤ length plan.targets.items) }
        ensures missing { IfNone result (IsPackageWhole (draft_parts self) → ⊥) }
    {
        if self.targets.is_empty() {
            return None;
        }
        Some(PackagePlan {
            identifier: Identifier {
                name: self.name?,
                stale: self.stale,
            },
            targets: self.targets,
            communities: self.communities,
            kind: self.kind,
            dependencies: self.dependencies,
            certificates: self.certificates,
            signer: self.signer?,
            wrap: self.wrap,
            image: self.image?,
        })
    }
}
