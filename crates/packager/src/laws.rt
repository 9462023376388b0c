//! Laws of the definitions, which no call computes.

ghost use Rattle.std.specs.Prelude.{◌≡◌, ◌↔◌, ℕ, ◌+◌, ◌<◌, ◌≤◌, ◌^◌, ◌++◌, List, length, true, false, flat_map, AllPairs};
ghost use Rattle.der_core.specs.Asked.{AllHold};
ghost use Rattle.cert_fields.specs.Certificate.{IsCertificate, certificate_text, signed_text};
ghost use Rattle.cert_fields.specs.Extensions.{HasExtensions};
ghost use Rattle.cert_fields.specs.declared.extensions.Extensions.{Extensions};
ghost use Rattle.cms_signed.specs.Cut.{firmware_package};
ghost use Rattle.cms_signed.specs.Message.{IsMessage, message_tail, message_text};
ghost use Rattle.cms_signed.specs.Signed.{tail_text};
ghost use Rattle.cms_signed.specs.Signer.{to_be_signed};
ghost use Rattle.cms_signed.specs.Tail.{signed_conditions};
ghost use Rattle.hss_chain.specs.Chains.{HssHolds};
ghost use Rattle.key_state.specs.KeyBlock.{row_start};
ghost use Rattle.lms_sign.specs.declared.key.SignKey.{SignKey};
ghost use Rattle.lms_sign.specs.PublicKeys.{leaf_count, hss_signature_size};
ghost use Rattle.lms_sign.specs.Roots.{public_key};
ghost use Rattle.lms_sign.specs.SignTexts.{sign_text};
ghost use Rattle.package_attrs.specs.Attributes.{Describes};
ghost use Rattle.package_attrs.specs.Image.{IsImage, IsOctetString};
ghost use Rattle.packager.specs.CertificatePlan.{CertificatePlan, planned_part, planned_certificate};
ghost use Rattle.packager.specs.PackagePlan.{PlannedPackage, IsPackagePlan, HasTexts};
ghost use Rattle.packager.specs.PlannedMessage.{planned_content, planned_attributes, planned_description};
ghost use Rattle.packager.specs.PlannedMessage.{planned_message};
ghost use Rattle.packager.specs.ReadPlans.{IsCertificatePlan, SaysPlanned, AllBut};
ghost use Rattle.signed_write.specs.Unsigned.{Parts};
ghost use Rattle.packager.specs.SigningRuns.{Certifies, Packs, output_text};
ghost use Rattle.packager.specs.BoardRuns.{BoardRun, AreBoardRuns, leaf_used};

use cert_fields::one_certificate_text;
use cms_signed::laws::accepted_items_are_messages;
use key_state::no_leaf_is_given_twice;
use lms_sign::signatures_hold;

/// A planned package is signed data of one signer, exactly where at most 2^20 octets stand behind its
/// encapContentInfo (`message`, `limit`): of its text all conditions hold that `read_signed` asks (RFC
/// 5652, sections 5.1 to 5.4). That limit is condition 11, and the others hold of each planned package,
/// however many octets its certificates have (`others`). Its signed attributes describe a package by
/// the plan's values, whose digest is that of its content (RFC 4108, section 2.2).
pub fn packages_are_signed_data()
    ensures message { (p : PlannedPackage) (signature : List ℕ) → IsPackagePlan p → HasTexts p
        → length (tail_text (message_tail (planned_message p signature))) ≤ 1048576
        → IsMessage firmware_package (planned_message p signature) }
    ensures others { (p : PlannedPackage) (signature : List ℕ) → IsPackagePlan p → HasTexts p
        → length signature ≤ 2 ^ 20
        → AllBut 11 (signed_conditions firmware_package (message_text (planned_message p signature))) }
    ensures limit { (p : PlannedPackage) (signature : List ℕ) → IsPackagePlan p → HasTexts p
        → length signature ≤ 2 ^ 20
        → AllHold (signed_conditions firmware_package (message_text (planned_message p signature)))
        ↔ (length (tail_text (message_tail (planned_message p signature))) ≤ 1048576) }
    ensures describes { (p : PlannedPackage) → IsPackagePlan p → HasTexts p
        → Describes (planned_attributes p) (planned_description p) }
{
    one_certificate_text();
    accepted_items_are_messages();
}

/// The image of a planned package is the plan's, where the plan wraps it, and where it isn't itself
/// one OCTET STRING (RFC 4108, section 2.1.5).
pub fn packages_keep_their_image()
    ensures wrapped { (p : PlannedPackage) → IsPackagePlan p → p.wrap ≡ true
        → IsImage (planned_content p) p.image }
    ensures bare { (p : PlannedPackage) → p.wrap ≡ false
        → ((contents : List ℕ) → IsOctetString p.image contents → ⊥)
        → IsImage (planned_content p) p.image }
{}

/// A planned certificate has a text, so its text is read as it (RFC 5280, section 4.1), and its
/// extensions say what the plan says (section 4.2).
pub fn issued_certificates_are_read()
    ensures certificate { (p : CertificatePlan) (signature : List ℕ) → IsCertificatePlan p
        → length signature ≤ 2 ^ 20 → IsCertificate (planned_certificate p signature) }
    ensures extensions { (p : CertificatePlan) (signature : List ℕ) → IsCertificatePlan p
        → (e : Extensions) × HasExtensions (planned_certificate p signature) e × SaysPlanned p e }
{}

/// The signature of a package, and that of a certificate, holds under the public key of the key that
/// made it (RFC 8554, section 6.3), and has the size for which `pack` and `issue` leave room.
pub fn outputs_are_signed()
    ensures packages { (p : PlannedPackage) (key : SignKey) (leaf : ℕ) → leaf < leaf_count key
        → HssHolds (public_key key) (to_be_signed (planned_attributes p))
        (sign_text key leaf (to_be_signed (planned_attributes p))) }
    ensures certificates { (p : CertificatePlan) (key : SignKey) (leaf : ℕ) → leaf < leaf_count key
        → HssHolds (public_key key) (signed_text (planned_part p))
        (sign_text key leaf (signed_text (planned_part p))) }
    ensures size { (key : SignKey) (leaf : ℕ) (message : List ℕ) → leaf < leaf_count key
        → length (sign_text key leaf message) ≡ hss_signature_size key }
{
    signatures_hold();
}

/// What `finish` gives is the certificate or the package, signed with the number of the leaf that it
/// takes: the octets before the signature by what `issue` or `pack` says of them, and the signature
/// behind them.
pub fn finished_is_the_output()
    ensures certificates { (p : CertificatePlan) (unsigned : Parts) (key : SignKey) (leaf : ℕ)
        → leaf < leaf_count key → unsigned.signed ≡ signed_text (planned_part p)
        → ((signature : List ℕ) → length signature ≡ hss_signature_size key
        → unsigned.before ++ signature ≡ certificate_text (planned_certificate p signature))
        → unsigned.before ++ sign_text key leaf unsigned.signed ≡ output_text key (Certifies p) leaf }
    ensures packages { (p : PlannedPackage) (unsigned : Parts) (key : SignKey) (leaf : ℕ)
        → leaf < leaf_count key → unsigned.signed ≡ to_be_signed (planned_attributes p)
        → ((signature : List ℕ) → length signature ≡ hss_signature_size key
        → unsigned.before ++ signature ≡ message_text (planned_message p signature))
        → unsigned.before ++ sign_text key leaf unsigned.signed ≡ output_text key (Packs p) leaf }
{
    signatures_hold();
}

/// Over all runs on a key's board, whether they sign with its leaves or leave the board as it was, and
/// all power cuts in them, each leaf with which any octet was sent has a greater number than those
/// before it. So no two outputs of which any octet was sent have the same leaf (RFC 8554, section 9.2).
pub fn no_leaf_signs_twice()
    ensures ascends { (key : SignKey) (image : List ℕ) (runs : List BoardRun)
        → row_start + leaf_count key ≤ length image → AreBoardRuns key image runs
        → AllPairs (λ earlier later. earlier < later) (flat_map (leaf_used (leaf_count key)) runs) }
{
    no_leaf_is_given_twice();
}
