// Elements that are found by their places in octets.
ghost use Rattle.std.specs.Prelude.{◌≡◌, ◌↔◌, ◌∷◌, ◌≤◌, ◌+◌, ℕ, IsTrue, length, true, false, IfSome, IfNone, IsPermutation};
ghost use Rattle.std.specs.List.Sorted.{IsPartitionPoint};
ghost use Rattle.std.specs.Ordering.{is_le};
ghost use Rattle.constraint_meet.specs.Places.{part_at, key_at, key_cmp, AreInOrder, Holds};

use der_core::Cursor;
use std::cmp::Ordering;

// What is compared of an element.
#[derive(Clone, Copy)]
pub(crate) enum Part {
    Contents,
    Whole,
}

// This part of the element that stands at a place.
#[tactic(auto, unfolding(crate::specs::Places::part_at))]
fn part_at<'a>(part: Part, octets: &'a [u8], place: u32) -> &'a [u8]
    ensures { result.now ≡ part_at part octets.now place }
{
    let start = octets.len().saturating_sub(place as usize);
    match Cursor::new(&octets[start..]).next() {
        Some((_, contents, whole)) => match part {
            Part::Contents => contents,
            Part::Whole => whole,
        },
        None => &[],
    }
}

fn compare(part: Part, octets: &[u8], place: u32, it: &[u8], other: usize) -> Ordering
    ensures { result ≡ key_cmp (key_at part octets.now place) (it.now, other) }
{
    part_at(part, octets, place)
        .cmp(it)
        .then((place as usize).cmp(&other))
}

// Puts places in the order of what stands there, and of the places where that is the same.
pub(crate) fn sort_places(part: Part, octets: &[u8], places: &mut [u32])
    ensures same { IsPermutation places.old places.new }
    ensures ordered { AreInOrder part octets.now places.new }
{
    places.sort_unstable_by(|this, that| {
        compare(
            part,
            octets,
            *this,
            part_at(part, octets, *that),
            *that as usize,
        )
    });
}

// The first place that comes after all at which this or less stands, up to the place `after`.
fn first_beyond(part: Part, octets: &[u8], places: &[u32], it: &[u8], after: usize) -> usize
    requires ordered { AreInOrder part octets.now places.now }
    ensures bound { result ≤ length places.now }
    ensures parted { IsPartitionPoint
        (λ place. is_le (key_cmp (key_at part octets.now place) (it.now, after)) ≡ true)
        (λ place. is_le (key_cmp (key_at part octets.now place) (it.now, after)) ≡ false)
        places.now result }
{
    places.partition_point(|place| compare(part, octets, *place, it, after).is_le())
}

// Whether this stands at a place, with at most `size` octets from it to the end beside `after`.
fn is_there(part: Part, octets: &[u8], place: u32, it: &[u8], after: usize, size: usize) -> bool
    ensures { IsTrue result
        ↔ (part_at part octets.now place ≡ it.now) × (place ≤ after + size) }
{
    part_at(part, octets, place) == it && (place as usize).saturating_sub(after) <= size
}

// A place at which this stands, with more than `after` octets from it to the end, and at most `size`
// beside them. It takes a number of comparisons that is logarithmic in the places.
pub(crate) fn find_place(
    part: Part,
    octets: &[u8],
    places: &[u32],
    it: &[u8],
    after: usize,
    size: usize,
) -> Option<u32>
    requires ordered { AreInOrder part octets.now places.now }
    ensures found { IfSome result (Holds part octets.now places.now after size it.now) }
    ensures none { IfNone result
        ((place : ℕ) → Holds part octets.now places.now after size it.now place → ⊥) }
{
    let first = first_beyond(part, octets, places, it, after);
    let Some(place) = places.get(first) else {
        return None;
    };
    if is_there(part, octets, *place, it, after, size) {
        Some(*place)
    } else {
        None
    }
}
