// Octets with a gap, read without what stands in it: a whole item has none.
ghost use Rattle.std.specs.Prelude.{◌≡◌, ◌==◌, length};
ghost use Rattle.der_core.specs.Reads.{Answers};
ghost use Rattle.der_core.specs.Shapes.{anything};
ghost use Rattle.cms_signed.specs.Gapped.{solid, is_nothing, gapped_front, gapped_tagged, solidly};
ghost use Rattle.cms_signed.specs.SignedView.{gapped_view};

use der_core::read_head;

// Octets, a gap of so many, and octets behind it.
#[derive(Clone, Copy, Debug)]
pub(crate) struct Gapped<'a> {
    pub front: &'a [u8],
    pub gap: u32,
    pub back: &'a [u8],
}

// Octets without a gap.
fn solid(octets: &[u8]) -> Gapped<'_>
    ensures { gapped_view result ≡ solid octets.now }
{
    Gapped {
        front: octets,
        gap: 0,
        back: &[],
    }
}

// The octets, where there is no gap in them.
pub(crate) fn octets(octets: Gapped<'_>) -> Option<&[u8]>
    ensures { Answers (λ x. x.now) result (solidly anything (gapped_view octets.entry)) }
{
    if octets.gap == 0 && octets.back.is_empty() {
        Some(octets.front)
    } else {
        None
    }
}

pub(crate) fn is_nothing(octets: Gapped<'_>) -> bool
    ensures { result ≡ is_nothing (gapped_view octets.entry) }
{
    octets.front.is_empty() && octets.gap == 0 && octets.back.is_empty()
}

// Tag and contents of the element at the front, and what follows it.
#[tactic(auto, unfolding(crate::specs::Gapped::gapped_front))]
pub(crate) fn split(octets: Gapped<'_>) -> Option<(u8, Gapped<'_>, Gapped<'_>)>
    ensures { Answers (λ x. (x.0, (gapped_view x.1, gapped_view x.2))) result
        (gapped_front (gapped_view octets.entry)) }
{
    let Ok((tag, size, after)) = read_head(octets.front) else {
        return None;
    };
    let size = size as usize;
    let reach = after.len() + octets.gap as usize;
    if size < reach {
        if after.len() < size {
            return None;
        }
        let (contents, rest) = after.split_at(size);
        let rest = Gapped {
            front: rest,
            gap: octets.gap,
            back: octets.back,
        };
        return Some((tag, solid(contents), rest));
    }
    if octets.back.len() < size - reach {
        return None;
    }
    let (inside, rest) = octets.back.split_at(size - reach);
    let contents = Gapped {
        front: after,
        gap: octets.gap,
        back: inside,
    };
    Some((tag, contents, solid(rest)))
}

// Contents of the element at the front, where it has this tag, and what follows it.
#[tactic(auto, unfolding(crate::specs::Gapped::gapped_tagged))]
pub(crate) fn tagged(octets: Gapped<'_>, tag: u8) -> Option<(Gapped<'_>, Gapped<'_>)>
    ensures { Answers (λ x. (gapped_view x.0, gapped_view x.1)) result
        (gapped_tagged tag (gapped_view octets.entry)) }
{
    let (found, contents, rest) = split(octets)?;
    if found != tag {
        return None;
    }
    Some((contents, rest))
}
