// Laws over streams, for the layers that feed them.
ghost use Rattle.std.specs.Prelude.{◌≡◌, ◌+◌, ◌≤◌, ℕ, Bool, List, length, take, drop};
ghost use Rattle.der_core.specs.Element.{AreOctets};
ghost use Rattle.package_attrs.specs.Image.{IsImage};
ghost use Rattle.content_stream.specs.Wraps.{IsWrapSize};
ghost use Rattle.content_stream.specs.Plans.{Plan, InFree, InStream, IsPlanned, LiesBelow};

/// A law: the blocks of a stream were free ones of the pool when it began.
pub fn blocks_were_free()
    ensures { (base content_size : ℕ) (front : List ℕ) (old new : List Bool) (plan : Plan)
        → IsPlanned base content_size front old new plan
        → (i : ℕ) → InStream plan i → InFree base old i }
{}

/// A law: they lie in each flash in which all blocks of the pool do.
pub fn blocks_lie_below()
    ensures { (base content_size : ℕ) (front : List ℕ) (old new : List Bool) (plan : Plan)
        → IsPlanned base content_size front old new plan
        → (blocks : ℕ) → base + length old ≤ blocks → LiesBelow blocks plan }
{}

/// A law: each content has an image (RFC 4108, section 2.1.5): what stands behind the octets of its
/// wrap, and nothing else.
pub fn each_content_has_an_image()
    ensures some { (content : List ℕ) → AreOctets content
        → (image : List ℕ) × IsImage content image }
    ensures rest { (content : List ℕ) (wrap_size : ℕ)
        → IsWrapSize (length content) (take 6 content) wrap_size
        → IsImage content (drop wrap_size content) }
    ensures only { (content image : List ℕ) (wrap_size : ℕ)
        → IsWrapSize (length content) (take 6 content) wrap_size → IsImage content image
        → image ≡ drop wrap_size content }
{}
