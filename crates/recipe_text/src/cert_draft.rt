// What the lines of a certificate recipe say so far.
ghost use Rattle.std.specs.Prelude.{◌≡◌, IfOk, IfSome, IfNone};
ghost use Rattle.packager.specs.CertificatePlan.{plan_view};
ghost use Rattle.recipe_text.specs.CertReading.{IsValueOf, draft_parts, TakesCert};
ghost use Rattle.recipe_text.specs.CertRecipe.{IsCertFit, IsCertWhole, IsCertLine, no_parts, plan_parts};

use crate::cert_line::{CertKind, authority_in, hardware_in, kind_named, uses_in};
use crate::cut::cut_at;
use crate::name_word::name_in;
use crate::place::fill;
use crate::words::{constraints_in, hex64_in, hss_key_in, serial_in};
use der_core::{Moment, Octets64, Oid, read_decimal_moment};
use hss_chain::HssKey;
use packager::{Authority, CertPlan, KeyUses};
use std::alloc::{AllocError, Global};

// What lines say of a certificate.
#[derive(Drop)]
pub(crate) struct CertDraft {
    serial: Option<Vec<u8>>,
    issuer: Option<Vec<u8>>,
    subject: Option<Vec<u8>>,
    from: Option<Moment>,
    to: Option<Moment>,
    key: Option<HssKey>,
    subject_key: Option<Octets64>,
    authority_key: Option<Octets64>,
    authority: Option<Authority>,
    uses: Option<KeyUses>,
    constraints: Option<Vec<u8>>,
    hardware: Option<(Oid, Octets64)>,
}

impl CertDraft {
    // That no line has been read.
    pub(crate) fn new() -> CertDraft
        ensures none { draft_parts result ≡ no_parts }
    {
        CertDraft {
            serial: None,
            issuer: None,
            subject: None,
            from: None,
            to: None,
            key: None,
            subject_key: None,
            authority_key: None,
            authority: None,
            uses: None,
            constraints: None,
            hardware: None,
        }
    }

    // Takes what one more line says, and says whether it may stand there.
    pub(crate) fn take(&mut self, alloc: Global, line: &[u8]) -> Result<bool, AllocError>
        requires fit { IsCertFit (draft_parts self.old) }
        ensures takes { IfOk result (TakesCert (IsCertLine line.now) self.old self.new) }
    {
        let Some((name, text)) = cut_at(line, b' ') else {
            return Ok(false);
        };
        let Some(kind) = kind_named(name) else {
            return Ok(false);
        };
        self.take_value(alloc, kind, text)
    }

    // The same of a line of this kind, with this text behind its first word.
    fn take_value(&mut self, alloc: Global, kind: CertKind, text: &[u8]) -> Result<bool, AllocError>
        requires fit { IsCertFit (draft_parts self.old) }
        ensures takes { IfOk result (TakesCert (IsValueOf kind text.now) self.old self.new) }
    {
        match kind {
            CertKind::Serial => Ok(fill(&mut self.serial, serial_in(alloc, text)?)),
            CertKind::Issuer => Ok(fill(&mut self.issuer, name_in(alloc, text)?)),
            CertKind::Subject => Ok(fill(&mut self.subject, name_in(alloc, text)?)),
            CertKind::From => Ok(fill(&mut self.from, read_decimal_moment(text))),
            CertKind::To => Ok(fill(&mut self.to, read_decimal_moment(text))),
            CertKind::Public => Ok(fill(&mut self.key, hss_key_in(text))),
            CertKind::SubjectKey => Ok(fill(&mut self.subject_key, hex64_in(alloc, text)?)),
            CertKind::AuthorityKey => Ok(fill(&mut self.authority_key, hex64_in(alloc, text)?)),
            CertKind::Ca => Ok(fill(&mut self.authority, authority_in(text))),
            CertKind::Usage => Ok(fill(&mut self.uses, uses_in(text))),
            CertKind::Constraint => Ok(fill(&mut self.constraints, constraints_in(alloc, text)?)),
            CertKind::Hardware => Ok(fill(&mut self.hardware, hardware_in(alloc, text)?)),
        }
    }

    // What the certificate is to say. None where a needed line is missing.
    pub(crate) fn plan(self) -> Option<CertPlan>
        ensures whole { IfSome result (λ plan. draft_parts self ≡ plan_parts (plan_view plan)) }
        ensures missing { IfNone result (IsCertWhole (draft_parts self) → ⊥) }
    {
        Some(CertPlan {
            serial: self.serial?,
            issuer: self.issuer?,
            subject: self.subject?,
            from: self.from?,
            to: self.to?,
            key: self.key?,
            subject_key: self.subject_key,
            authority_key: self.authority_key,
            authority: self.authority,
            uses: self.uses,
            constraints: self.constraints,
            hardware: self.hardware,
        })
    }
}
