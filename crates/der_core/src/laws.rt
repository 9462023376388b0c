//! Laws of the definitions, which no call computes.

ghost use Rattle.der_core.specs.declared.time_value.Time.{Time};
ghost use Rattle.std.specs.Prelude.{◌≡◌, ◌↔◌, ◌++◌, ◌∷◌, ◌<◌, ◌≤◌, ◌^◌, ◌⊎◌, ℕ, ℤ, List, [], Some};
ghost use Rattle.std.specs.Prelude.{IsTrue, length};
ghost use Rattle.std.specs.List.{AllByRecursion, concat, flat_map};
ghost use Rattle.der_core.specs.Attribute.{AreElements, Attribute, attribute_text, IsAttribute};
ghost use Rattle.der_core.specs.AttributeReading.{are_elements};
ghost use Rattle.der_core.specs.Element.{enc, AreOctets, IsElement};
ghost use Rattle.der_core.specs.Integer.{IsInteger, twos_complement, integer_contents};
ghost use Rattle.der_core.specs.Integer.{IsLeastSpelling};
ghost use Rattle.der_core.specs.Items.{IsSequence, HasSequence, IsItems, items, last_item, Splits};
ghost use Rattle.der_core.specs.Moment.{IsMoment};
ghost use Rattle.der_core.specs.Number.{number_contents, IsFewest};
ghost use Rattle.der_core.specs.Objects.{oid_contents, AreSmall, IsOid};
ghost use Rattle.der_core.specs.Reading.{subidentifiers_of, front_of, number_of, oid_of};
ghost use Rattle.der_core.specs.Shapes.{IsOneElement};
ghost use Rattle.der_core.specs.Time.{utc_text, IsUtc, generalized_text, time_tag, time_contents};
ghost use Rattle.der_core.specs.Time.{IsTime, time_text};
ghost use Rattle.der_core.specs.TimeReading.{time_of};

/// What a slice holds is octets.
pub fn slice_is_octets(slice: &[u8])
    ensures { AreOctets slice.now }
{}

/// No element begins another, so octets begin with at most one (X.690, section 8.1).
pub fn one_element()
    ensures { (tag tag' : ℕ) (contents contents' rest rest' : List ℕ)
        → IsElement tag contents → IsElement tag' contents'
        → enc tag contents ++ rest ≡ enc tag' contents' ++ rest'
        → (tag ≡ tag') × (contents ≡ contents') × (rest ≡ rest') }
{}

/// A number's contents are the fewest octets whose two's complement range holds it (X.690,
/// section 8.3.2).
pub fn fewest_octets()
    ensures { (n : ℕ) → IsFewest n (number_contents n) }
{}

/// Different numbers have different contents.
pub fn one_number()
    ensures { (n n' : ℕ) → number_contents n ≡ number_contents n' → n ≡ n' }
{}

/// The subidentifiers that octets are read as are those that spell them.
pub fn one_list_of_subidentifiers()
    ensures { (ss : List ℕ) → AreSmall ss → subidentifiers_of (oid_contents ss) ≡ Some ss }
{}

/// Different lists of subidentifiers have different contents.
pub fn one_identifier()
    ensures { (ss ss' : List ℕ) → AreSmall ss → AreSmall ss'
        → oid_contents ss ≡ oid_contents ss' → ss ≡ ss' }
{}

/// An element is read as its tag and contents, whatever follows it.
pub fn element_is_read()
    ensures { (tag : ℕ) (contents rest : List ℕ) → IsElement tag contents
        → front_of (enc tag contents ++ rest) ≡ Some (tag, (contents, rest)) }
{}

/// A number's contents are read as the number.
pub fn number_is_read()
    ensures { (n : ℕ) → n < 2 ^ 128 → number_of (number_contents n) ≡ Some n }
{}

/// An identifier's octets are read as the identifier.
pub fn identifier_is_read()
    ensures { (octets : List ℕ) → IsOid octets → oid_of octets ≡ Some octets }
{}

/// Octets are the contents of an INTEGER exactly where no fewer octets have the same two's
/// complement (X.690, section 8.3.2).
pub fn fewest_integer_octets()
    ensures { (octets : List ℕ) → AreOctets octets
        → IsInteger octets ↔ IsLeastSpelling (twos_complement octets) octets }
{}

/// Each integer, also one below 0, has one spelling as the contents of an INTEGER.
pub fn one_integer_spelling()
    ensures { (number : ℤ) (octets : List ℕ)
        → (AreOctets octets × IsInteger octets × (twos_complement octets ≡ number))
        ↔ (octets ≡ integer_contents number) }
{}

/// A moment is read back from the form in which it is written.
pub fn written_time_is_read()
    ensures { (moment : ℕ) → IsMoment moment
        → time_of (time_tag moment) (time_contents moment) ≡ Some moment }
{}

/// Any octets have one list of items, which `items` reads, and are these items one after the other
/// (a SEQUENCE is an element of X.690, section 8.9).
pub fn one_list_of_items()
    ensures read { (octets : List ℕ)
        → AreOctets octets → IsItems octets (items octets) }
    ensures only { (octets : List ℕ) (these those : List (List ℕ))
        → IsItems octets these → IsItems octets those → these ≡ those }
    ensures joined { (octets : List ℕ) (these : List (List ℕ))
        → IsItems octets these → flat_map (λ item. item) these ≡ octets }
{}

/// The items of a stream are those that have ended so far, and then those of what the next one has
/// had and all that is still to come. Where nothing comes, what it has had is the last.
pub fn items_of_stream()
    ensures going_on { (stream : List ℕ) (ended : List (List ℕ)) (so_far : List ℕ)
        → Splits stream ended so_far
        → (rest : List ℕ) (others : List (List ℕ)) → IsItems (so_far ++ rest) others
        → IsItems (stream ++ rest) (ended ++ others) }
    ensures at_end { (stream : List ℕ) (ended : List (List ℕ)) (so_far : List ℕ)
        → Splits stream ended so_far → IsItems stream (ended ++ last_item so_far) }
{}

/// The items of octets are the whole ones that stand at their front, one after the other, and then
/// the items of what stands behind these.
pub fn whole_items_come_first()
    ensures sequences { (ended items : List (List ℕ)) (rest : List ℕ) → AllByRecursion IsSequence ended
        → IsItems (flat_map (λ item. item) ended ++ rest) items
        → (others : List (List ℕ)) × (items ≡ ended ++ others) × IsItems rest others }
    ensures split { (taken so_far rest : List ℕ) (ended items : List (List ℕ))
        → Splits taken ended so_far → IsItems (taken ++ rest) items
        → (others : List (List ℕ)) × (items ≡ ended ++ others) × IsItems (so_far ++ rest) others }
{}

/// An item that stands in front of octets is their first: a whole SEQUENCE, or one that begins none
/// and has nothing behind it.
pub fn item_in_front_comes_first()
    ensures { (item rest : List ℕ) (items : List (List ℕ))
        → IsSequence item ⊎ ((0 < length item) × (HasSequence item → ⊥) × (rest ≡ []))
        → IsItems (item ++ rest) items
        → (others : List (List ℕ)) × (items ≡ item ∷ others) × IsItems rest others }
{}

/// Where no front of octets is a SEQUENCE, unless it be all of them, the first item of these octets
/// and what follows begins with all of them.
pub fn first_item_has_its_beginning()
    ensures { (so_far rest item : List ℕ) (others : List (List ℕ))
        → (HasSequence so_far → IsSequence so_far) → IsItems (so_far ++ rest) (item ∷ others)
        → (more : List ℕ) × (item ≡ so_far ++ more) × (length so_far ≤ length item) }
{}

/// Any front of octets is whole items, and then the beginning of one.
pub fn any_front_splits()
    ensures { (octets rest : List ℕ) (items : List (List ℕ)) → IsItems (octets ++ rest) items
        → (ended : List (List ℕ)) × (so_far : List ℕ) × Splits octets ended so_far }
{}

/// Different moments have different texts in each form, and different times have different texts.
pub fn one_time()
    ensures utc { (m n : ℕ) → IsUtc m → IsUtc n → utc_text m ≡ utc_text n → m ≡ n }
    ensures generalized { (m n : ℕ) → IsMoment m → IsMoment n
        → generalized_text m ≡ generalized_text n → m ≡ n }
    ensures text { (t u : Time) → IsTime t → IsTime u → time_text t ≡ time_text u → t ≡ u }
{}

/// A stream has been split in one way so far: into the items that have ended, and what the next one
/// has had.
pub fn one_split()
    ensures { (stream so_far so_far' : List ℕ) (ended ended' : List (List ℕ))
        → Splits stream ended so_far → Splits stream ended' so_far'
        → (ended ≡ ended') × (so_far ≡ so_far') }
{}

/// Octets are one list of elements at most.
pub fn one_list_of_elements()
    ensures { (these those : List (List ℕ))
        → AllByRecursion IsOneElement these → AllByRecursion IsOneElement those
        → concat these ≡ concat those → these ≡ those }
{}

/// Different attributes have different texts.
pub fn one_attribute()
    ensures { (a b : Attribute) → IsAttribute a → IsAttribute b
        → attribute_text a ≡ attribute_text b → a ≡ b }
{}

/// Octets that are found to be elements, one after the other, are the text of a list of elements.
pub fn elements_one_after_the_other()
    ensures { (octets : List ℕ) → AreOctets octets
        → IsTrue (are_elements octets) ↔ AreElements octets }
{}

/// Where elements stand one after the other, one stands at the front, and elements follow it.
pub fn elements_are_passed()
    ensures { (octets : List ℕ) → IsTrue (are_elements octets) → 0 < length octets
        → (tag : ℕ) × (contents : List ℕ) × (rest : List ℕ)
        × (front_of octets ≡ Some (tag, (contents, rest))) × IsTrue (are_elements rest) }
{}
