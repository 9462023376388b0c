// Laws over the definitions alone.
ghost use Rattle.std.specs.Prelude.{◌≡◌, ℕ, ◌+◌, ◌<◌, ◌≤◌, ◌^◌, List, length};
ghost use Rattle.hss_chain.specs.declared.key.HssKey.{HssKey};
ghost use Rattle.hss_chain.specs.Chains.{HssHolds};
ghost use Rattle.hss_chain.specs.Keys.{IsHssKey, hss_key_text};
ghost use Rattle.lms_verify.specs.Kinds.{height};
ghost use Rattle.lms_verify.specs.OneTime.{chain_after};
ghost use Rattle.lms_verify.specs.Tree.{node};
ghost use Rattle.lms_sign.specs.declared.key.SignKey.{SignKey};
ghost use Rattle.lms_sign.specs.Nodes.{GoesUp, IsTree, above, tree_node};
ghost use Rattle.lms_sign.specs.Roots.{public_key};
ghost use Rattle.lms_sign.specs.SignTexts.{sign_text};
ghost use Rattle.lms_sign.specs.PublicKeys.{hss_signature_size, leaf_count};

/// A law: m steps of a chain and then n steps are m + n steps (RFC 8554, sections 4.3 and 4.6).
pub fn steps_of_a_chain_add_up()
    ensures { (id : List ℕ) (q i from m n : ℕ) (value : List ℕ)
        → chain_after id q i (from + m) n (chain_after id q i from m value)
        ≡ chain_after id q i from (m + n) value }
{}

/// A law: the nodes of a signing key's tree are those of the standard (RFC 8554, section 5.3).
pub fn nodes_are_those_of_the_standard()
    ensures { (key : SignKey) → IsTree key }
{}

/// A law: node values that begin at a leaf and go on by the path of its signature are, at each
/// place, those of the tree (RFC 8554, section 5.4).
pub fn path_goes_up_the_tree()
    ensures { (key : SignKey) (q : ℕ) (nodes : List (List ℕ)) → q < leaf_count key
        → GoesUp key q nodes → (i : ℕ) → i ≤ height key.kind
        → node nodes i ≡ tree_node key (above key q i) }
{}

/// A law: what a key signs, with any of its leaves, holds under its public key (RFC 8554, section
/// 6.3).
pub fn signatures_hold()
    ensures { (key : SignKey) (q : ℕ) (message : List ℕ) → q < leaf_count key
        → HssHolds (public_key key) message (sign_text key q message) }
{}

/// A law: what a key signs has as many octets as `signature_size` says (RFC 8554, sections 5.4 and
/// 6.2).
pub fn signatures_have_one_size()
    ensures size { (key : SignKey) (leaf : ℕ) (message : List ℕ) → leaf < leaf_count key
        → length (sign_text key leaf message) ≡ hss_signature_size key }
{}

/// A law: signatures that are equal were made with leaves of one number, whatever the keys and the
/// messages (RFC 8554, sections 5.4 and 6.2). So where no leaf of a key signs twice, no signature by
/// it is ever sent for two messages.
pub fn signatures_name_their_leaf()
    ensures { (key other : SignKey) (q p : ℕ) (message text : List ℕ) → q < 2 ^ 32 → p < 2 ^ 32
        → sign_text key q message ≡ sign_text other p text → q ≡ p }
{}

/// A law: two valid keys never share their octets (RFC 8554, section 6.1). So `key_octets`, which
/// writes those of a key, and `hss_key`, which reads the key whose octets they are, are inverse.
pub fn keys_have_one_text_each()
    ensures { (a b : HssKey) → IsHssKey a → IsHssKey b → hss_key_text a ≡ hss_key_text b → a ≡ b }
{}
