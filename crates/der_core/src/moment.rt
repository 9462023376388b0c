ghost use Rattle.std.specs.Prelude.{◌≡◌, ◌↔◌, SomeIff, IsTrue};
ghost use Rattle.der_core.specs.Moment.{IsMoment};
ghost use Rattle.der_core.specs.Reads.{Answers};
ghost use Rattle.der_core.specs.TimeReading.{is_moment, moment_of};

use std::marker::Model;

/// A date with a time of day, seen as the number whose fourteen decimal digits are
/// YYYYMMDDhhmmss. Every month has a day 31, and there is a year 0000.
///
/// Moments are ordered as their numbers are, which is the order of time.
#[derive(Clone, Copy, Debug, PartialEq, Eq, PartialOrd, Ord)]
pub struct Moment {
    digits: u64,
}

impl Model for Moment {
    ghost use Rattle.std.specs.Prelude.{ℕ};
    ghost use Rattle.der_core.specs.Moment.{IsMoment};

    ghost Value = { ℕ };

    ghost view = { λ m. m.digits };

    ghost invariant = { λ m. IsMoment m.digits };

    ghost inverse = { λ n. record { digits = n } };
}

impl Moment {
    /// The moment with these digits, where each part is in its range.
    #[tactic(auto, unfolding(crate::specs::TimeReading::moment_of))]
    pub fn new(digits: u64) -> Option<Moment>
        ensures found { SomeIff result (IsMoment digits) digits }
        ensures exact { Answers (λ moment. moment) result (moment_of digits) }
    {
        if is_moment(digits) {
            Some(Moment { digits })
        } else {
            None
        }
    }

    /// The fourteen digits, as a number.
    pub fn digits(&self) -> u64
        ensures value { result ≡ self.now }
        ensures valid { IsMoment result }
    {
        self.digits
    }
}

// Whether the year has at most four digits, and each other part is in its range.
#[tactic(auto, unfolding(crate::specs::TimeReading::is_moment))]
fn is_moment(digits: u64) -> bool
    ensures valid { IsTrue result ↔ IsMoment digits }
    ensures exact { result ≡ is_moment digits }
{
    let month = digits / 100_000_000 % 100;
    let day = digits / 1_000_000 % 100;
    let hour = digits / 10_000 % 100;
    let minute = digits / 100 % 100;
    let second = digits % 100;
    digits / 10_000_000_000 < 10_000
        && (0 < month && month < 13)
        && (0 < day && day < 32)
        && (hour < 24 && (minute < 60 && second < 60))
}
