// Laws of the definitions, which no call computes.
ghost use Rattle.std.specs.Prelude.{◌≡◌};
ghost use Rattle.hss_chain.specs.declared.key.HssKey.{HssKey};
ghost use Rattle.hss_chain.specs.Keys.{IsHssKey, hss_key_text};

/// A law: two valid keys never share their octets (RFC 8554, section 6.1). So octets have one reading as
/// a key.
pub fn keys_have_one_text_each()
    ensures { (a b : HssKey) → IsHssKey a → IsHssKey b → hss_key_text a ≡ hss_key_text b → a ≡ b }
{}
