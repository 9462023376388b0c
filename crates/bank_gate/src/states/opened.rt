// A bank whose gate is open.
ghost use Rattle.std.specs.Prelude.{◌≡◌};
ghost use Rattle.bank_gate.specs.Places.{IsPlace};

use crate::Place;
use std::marker::Model;

/// A bank that is open after each power cut, since its gate is 0F and nothing is pending.
/// `Armed::open` alone gives one, and it can't be copied.
pub struct Opened {
    pub(super) place: Place,
}

impl Model for Opened {
    ghost use Rattle.bank_gate.specs.declared.place.Place.{Place};
    ghost use Rattle.bank_gate.specs.Places.{IsPlace};

    ghost Value = { Place };

    ghost view = { λ bank. bank.place };

    ghost invariant = { λ bank. IsPlace bank.place };
}

impl Opened {
    /// The way out: where the open bank lies.
    pub fn done(self) -> Place
        ensures place { result ≡ self }
        ensures lies { IsPlace result }
    {
        let Opened { place } = self;
        place
    }
}
