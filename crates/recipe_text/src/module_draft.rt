// What the lines of a module recipe say so far.
ghost use Rattle.std.specs.Prelude.{◌≡◌, ◌≤◌, IfOk, IfSome, IfNone, length};
ghost use Rattle.recipe_text.specs.ModuleReading.{IsValueOf, draft_parts, TakesModule};
ghost use Rattle.recipe_text.specs.ModuleRecipe.{IsModuleFit, IsModuleWhole, IsModuleLine, no_parts, plan_parts};

use crate::anchor_line::anchor_in;
use crate::cut::cut_at;
use crate::key_line::key_behind;
use crate::module_line::{ModuleKind, capacity_in, kind_named};
use crate::oid_word::oid_in;
use crate::place::{add, fill};
use crate::words::hex64_in;
use cert_fields::Anchor;
use der_core::{Octets64, Oid, read_decimal_u128};
use lms_sign::SignKey;
use module_record::{Anchors, Kinds, MOST_ANCHORS, MOST_LISTED, Module, Oids};
use std::alloc::{AllocError, Global};

// What lines say of a module.
#[derive(Drop)]
pub(crate) struct ModuleDraft {
    hw_type: Option<Oid>,
    serial: Option<Octets64>,
    capacity: Option<u32>,
    key: Option<SignKey>,
    communities: Vec<Oid>,
    kinds: Vec<u128>,
    anchors: Vec<Anchor>,
}

impl ModuleDraft {
    // That no line has been read.
    pub(crate) fn new(alloc: Global) -> ModuleDraft
        ensures none { draft_parts result ≡ no_parts }
    {
        ModuleDraft {
            hw_type: None,
            serial: None,
            capacity: None,
            key: None,
            communities: Vec::new(alloc),
            kinds: Vec::new(alloc),
            anchors: Vec::new(alloc),
        }
    }

    // Takes what one more line says, and says whether it may stand there.
    pub(crate) fn take(&mut self, alloc: Global, line: &[u8]) -> Result<bool, AllocError>
        requires fit { IsModuleFit (draft_parts self.old) }
        ensures takes { IfOk result (TakesModule (IsModuleLine line.now) self.old self.new) }
    {
        let Some((name, text)) = cut_at(line, b' ') else {
            return Ok(false);
        };
        let Some(kind) = kind_named(name) else {
            return Ok(false);
        };
        self.take_value(alloc, kind, text)
    }

    // The same of a line of this kind, with this text behind its first word.
    fn take_value(
        &mut self,
        alloc: Global,
        kind: ModuleKind,
        text: &[u8],
    ) -> Result<bool, AllocError>
        requires fit { IsModuleFit (draft_parts self.old) }
        ensures takes { IfOk result (TakesModule (IsValueOf kind text.now) self.old self.new) }
    {
        match kind {
            ModuleKind::HwType => Ok(fill(&mut self.hw_type, oid_in(alloc, text)?)),
            ModuleKind::Serial => Ok(fill(&mut self.serial, hex64_in(alloc, text)?)),
            ModuleKind::Capacity => Ok(fill(&mut self.capacity, capacity_in(text))),
            ModuleKind::Key => Ok(fill(&mut self.key, key_behind(text))),
            ModuleKind::Community => add(&mut self.communities, MOST_LISTED, oid_in(alloc, text)?),
            ModuleKind::Type => add(&mut self.kinds, MOST_LISTED, read_decimal_u128(text)),
            ModuleKind::Anchor => add(&mut self.anchors, MOST_ANCHORS, anchor_in(alloc, text)?),
        }
    }

    // The module. None where a needed line is missing.
    pub(crate) fn module(self) -> Option<Module>
        ensures whole { IfSome result (λ made. draft_parts self ≡ plan_parts made) }
        ensures some { IfSome result (λ made. 1 ≤ length made.anchors) }
        ensures missing { IfNone result (IsModuleWhole (draft_parts self) → ⊥) }
    {
        if self.anchors.is_empty() {
            return None;
        }
        Some(Module {
            hw_type: self.hw_type?,
            serial: self.serial?,
            communities: Oids::new(self.communities),
            kinds: Kinds::new(self.kinds),
            capacity: self.capacity?,
            anchors: Anchors::new(self.anchors),
            key: self.key?,
        })
    }
}
