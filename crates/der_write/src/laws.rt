//! Laws of the definitions: what is written is read back, whatever follows (of any element
//! `der_core` says so, by `element_is_read`), and a set has one text.

ghost use Rattle.std.specs.Prelude.{◌≡◌, ◌++◌, ◌<◌, ◌^◌, ℕ, List, Some, length, IsPermutation};
ghost use Rattle.std.specs.List.{AllByRecursion, concat};
ghost use Rattle.der_core.specs.Element.{enc};
ghost use Rattle.der_core.specs.Number.{number_contents};
ghost use Rattle.der_core.specs.Objects.{IsOid};
ghost use Rattle.der_core.specs.Reading.{number_of, oid_of};
ghost use Rattle.der_core.specs.Shapes.{element, listed, any_element, IsOneElement};
ghost use Rattle.der_core.specs.Time.{time_tag, time_contents};
ghost use Rattle.der_core.specs.Moment.{IsMoment};
ghost use Rattle.der_core.specs.TimeReading.{time_of};
ghost use Rattle.der_write.specs.Sets.{IsSetContents, IsSetOf};

/// A number that is written is read as that number.
pub fn written_number_is_read()
    ensures { (n : ℕ) (rest : List ℕ) → n < 2 ^ 128
        → element 0x02 number_of (enc 0x02 (number_contents n) ++ rest) ≡ Some (n, rest) }
{}

/// An identifier that is written is read as that identifier.
pub fn written_identifier_is_read()
    ensures { (octets rest : List ℕ) → IsOid octets
        → element 0x06 oid_of (enc 0x06 octets ++ rest) ≡ Some (octets, rest) }
{}

/// A time that is written is read as that moment.
pub fn written_time_is_read()
    ensures { (moment : ℕ) (rest : List ℕ) → IsMoment moment
        → element (time_tag moment) (time_of (time_tag moment))
        (enc (time_tag moment) (time_contents moment) ++ rest) ≡ Some (moment, rest) }
{}

/// A set that is written is read as its parts, in the order in which they stand.
pub fn written_set_is_read()
    ensures { (parts : List (List ℕ)) (rest : List ℕ) → AllByRecursion IsOneElement parts
        → length (concat parts) < 2 ^ 32
        → element 0x31 (listed any_element) (enc 0x31 (concat parts) ++ rest)
        ≡ Some (parts, rest) }
{}

/// A set has one text, whatever the order of its parts, and so have its contents.
pub fn one_set()
    ensures contents { (parts others : List (List ℕ)) (octets octets' : List ℕ)
        → IsPermutation parts others
        → IsSetContents parts octets → IsSetContents others octets' → octets ≡ octets' }
    ensures text { (parts others : List (List ℕ)) (octets octets' : List ℕ)
        → IsPermutation parts others
        → IsSetOf parts octets → IsSetOf others octets' → octets ≡ octets' }
{}
