ghost use Rattle.std.specs.Prelude.{◌≡◌, ◌<◌, ◌++◌, ◌==◌, length, OnSome, IfSome, IfNone};
ghost use Rattle.der_core.specs.Element.{enc, IsElement, IsTagged, HasElement, HasTagged};
ghost use Rattle.der_core.specs.Reading.{front_of, tagged_of};
ghost use Rattle.der_core.specs.Reads.{Answers};
ghost use Rattle.der_core.specs.Shapes.{begins_with, whole_element};

use crate::tlv::split_element;
use std::marker::Model;

/// Octets that are read element by element, seen as those that haven't been passed.
#[derive(Drop)]
pub struct Cursor<'a> {
    rest: &'a [u8],
}

impl<'a> Model for Cursor<'a> {
    ghost use Rattle.std.specs.Prelude.{List, ℕ};

    ghost Value = { List ℕ };

    ghost view = { λ c. c.rest.now };
}

impl<'a> Cursor<'a> {
    /// A cursor at the front of the octets.
    pub fn new(bytes: &'a [u8]) -> Cursor<'a>
        ensures all { result ≡ bytes.now }
    {
        Cursor { rest: bytes }
    }

    /// The octets that haven't been passed.
    pub fn rest(&self) -> &'a [u8]
        ensures rest { result.now ≡ self.now }
    {
        self.rest
    }

    /// Whether all of the octets have been passed.
    pub fn at_end(&self) -> bool
        ensures end { result ≡ (length self.now == 0) }
    {
        self.rest.is_empty()
    }

    /// Whether this tag stands at the front. No whole element need stand there.
    pub fn is_at(&self, tag: u8) -> bool
        ensures first { result ≡ begins_with tag self.now }
    {
        match self.rest {
            [] => false,
            [first, ..] => *first == tag,
        }
    }

    /// Passes the next element: its tag, its contents, and the whole of it. None, and the cursor
    /// stays, exactly where no element stands at the front.
    #[tactic(auto, unfolding(crate::specs::Reading::front_of))]
    pub fn next(&mut self) -> Option<(u8, &'a [u8], &'a [u8])>
        ensures element { IfSome result (λ x. IsElement x.0 x.1.now
            × (x.2.now ≡ enc x.0 x.1.now) × (self.old ≡ x.2.now ++ self.new)) }
        ensures shorter { OnSome result (length self.new < length self.old) }
        ensures none { IfNone result ((HasElement self.old → ⊥) × (self.new ≡ self.old)) }
        ensures exact { Answers (λ x. (x.0, (x.1.now, self.new))) result (front_of self.old) }
    {
        let before = self.rest;
        match split_element(before) {
            Ok((tag, contents, rest)) => {
                self.rest = rest;
                Some((tag, contents, &before[..before.len() - rest.len()]))
            }
            Err(_) => None,
        }
    }

    /// Passes the next element where its tag is this one, and gives its contents. None, and the
    /// cursor stays, exactly where no element of this tag stands at the front.
    #[tactic(auto, unfolding(crate::specs::Reading::tagged_of))]
    pub fn tagged(&mut self, tag: u8) -> Option<&'a [u8]>
        ensures element { IfSome result (λ contents. IsElement tag contents.now
            × (self.old ≡ enc tag contents.now ++ self.new)) }
        ensures shorter { OnSome result (length self.new < length self.old) }
        ensures absent { IfNone result (HasTagged tag self.old → ⊥) }
        ensures none { IfNone result (self.new ≡ self.old) }
        ensures exact { Answers (λ contents. (contents.now, self.new)) result
            (tagged_of tag self.old) }
    {
        let mut ahead = Cursor::new(self.rest);
        let (found, contents, _) = ahead.next()?;
        if found != tag {
            return None;
        }
        self.rest = ahead.rest;
        Some(contents)
    }

    /// Passes the next element where its tag is this one, and gives the whole of it. None, and the
    /// cursor stays, exactly where no element of this tag stands at the front.
    pub fn whole(&mut self, tag: u8) -> Option<&'a [u8]>
        ensures element { IfSome result (λ whole. IsTagged tag whole.now
            × (self.old ≡ whole.now ++ self.new)) }
        ensures shorter { OnSome result (length self.new < length self.old) }
        ensures absent { IfNone result (HasTagged tag self.old → ⊥) }
        ensures none { IfNone result (self.new ≡ self.old) }
        ensures exact { Answers (λ whole. (whole.now, self.new)) result
            (whole_element tag self.old) }
    {
        let before = self.rest;
        match self.tagged(tag) {
            Some(_) => Some(&before[..before.len() - self.rest.len()]),
            None => None,
        }
    }
}
