//! Laws of the definitions, which no call computes.

ghost use Rattle.std.specs.Prelude.{◌≡◌, ◌↔◌, ℕ, List, ◌++◌, length, take, drop, Some, IsTrue};
ghost use Rattle.std.specs.Prelude.{is_some};
ghost use Rattle.der_core.specs.Asked.{AllHold, FirstFail};
ghost use Rattle.der_core.specs.Element.{AreOctets};
ghost use Rattle.der_core.specs.Integer.{IsInteger};
ghost use Rattle.der_core.specs.Items.{IsSequence};
ghost use Rattle.der_core.specs.LeafReading.{integer_of};
ghost use Rattle.cms_signed.specs.Answer.{put_in, FitsCut};
ghost use Rattle.cms_signed.specs.Cut.{HasCut, firmware_package};
ghost use Rattle.cms_signed.specs.Message.{Message, IsMessage, message_text};
ghost use Rattle.cms_signed.specs.Outline.{Seen, Sees, content_of};
ghost use Rattle.cms_signed.specs.Signed.{outer_conditions, IsOuter};
ghost use Rattle.cms_signed.specs.Tail.{tail_conditions, on_tail, in_item};
ghost use Rattle.cms_signed.specs.Tail.{signed_conditions};

/// What the head of a content asks of the version is that it is the contents of an INTEGER.
pub fn a_version_is_an_integer()
    ensures { (contents : List ℕ) → AreOctets contents
        → IsTrue (is_some (integer_of contents)) ↔ IsInteger contents }
{}

/// An item has one content at most.
pub fn one_content()
    ensures { (item : List ℕ) (place size other count : ℕ) → HasCut item place size
        → HasCut item other count → (place ≡ other) × (size ≡ count) }
{}

/// What is seen of an outline is a function of the octets that it was fed.
pub fn one_outline()
    ensures { (seen other : Seen) (item : List ℕ) → Sees seen item → Sees other item
        → seen ≡ other }
{}

/// An item is its frame with the octets of its content that have come put in at the cut.
pub fn put_together()
    ensures { (seen : Seen) (place size : ℕ) (item : List ℕ)
        → seen.cut ≡ Some (place, size) → Sees seen item
        → (length (take size (drop place item)) ≡ seen.count)
        × (item ≡ take place seen.frame ++ (take size (drop place item) ++ drop place seen.frame)) }
{}

/// Of an item that has come whole its outline has had the whole content, and the item is the
/// frame with that content put in at the cut.
pub fn whole_item()
    ensures { (seen : Seen) (item : List ℕ) → IsSequence item → Sees seen item
        → FitsCut seen.cut (content_of seen.cut item)
        × (seen.count ≡ length (content_of seen.cut item))
        × (put_in seen.frame seen.cut (content_of seen.cut item) ≡ item) }
{}

/// An outline's frame begins with the head that its cut says, as `read_signed_cut` asks.
pub fn frame_has_cut()
    ensures { (seen : Seen) (place size : ℕ) (item : List ℕ)
        → seen.cut ≡ Some (place, size) → Sees seen item → HasCut seen.frame place size }
{}

/// Conditions on the octets behind encapContentInfo, asked of these octets alone, are those of
/// the item; behind the others they go on in their order.
pub fn tail_goes_on()
    ensures { (kind item content tail : List ℕ) → AllHold (outer_conditions kind item)
        → IsOuter item content tail
        → (AllHold (on_tail tail_conditions tail)
        → AllHold (outer_conditions kind item ++ in_item tail_conditions item))
        × ((number : ℕ) → FirstFail (on_tail tail_conditions tail) number
        → FirstFail (outer_conditions kind item ++ in_item tail_conditions item) number) }
{}

/// Of an item the conditions 3 to 18 hold exactly where it is the text of signed data of one signer.
pub fn accepted_items_are_messages()
    ensures { (kind item : List ℕ) → AllHold (signed_conditions kind item)
        ↔ ((m : Message) × IsMessage kind m × (item ≡ message_text m)) }
{}

/// An item is the text of one such value at most.
pub fn one_message()
    ensures { (kind other : List ℕ) (m n : Message) → IsMessage kind m → IsMessage other n
        → message_text m ≡ message_text n → m ≡ n }
{}

/// A message of a firmware package has a cut, and its content stands there. So an item of which the
/// conditions 3 to 18 hold was cut as it came.
pub fn messages_have_a_cut()
    ensures { (m : Message) → IsMessage firmware_package m
        → (place : ℕ) × HasCut (message_text m) place (length m.content)
        × (content_of (Some (place, length m.content)) (message_text m) ≡ m.content) }
{}
