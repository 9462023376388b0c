// The first octets of an item, as many as tag and length can take.
ghost use Rattle.std.specs.Prelude.{◌≡◌, ◌++◌, [], take};

use std::marker::Model;

// A tag and five length octets: no head takes more, where contents have fewer than 2^32 octets
// (X.690, sections 8.1.2 and 8.1.3).
const MOST: usize = 6;

#[derive(Drop)]
pub(crate) struct FirstOctets {
    len: usize,
    octets: [u8; MOST],
}

impl Model for FirstOctets {
    ghost use Rattle.std.specs.Prelude.{List, ℕ, ◌≤◌, take};

    ghost Value = { List ℕ };

    ghost view = { λ a. take a.len a.octets };

    ghost invariant = { λ a. a.len ≤ 6 };
}

impl FirstOctets {
    pub(crate) fn new() -> FirstOctets
        ensures { result ≡ [] }
    {
        FirstOctets {
            len: 0,
            octets: [0; MOST],
        }
    }

    pub(crate) fn octets(&self) -> &[u8]
        ensures { result.now ≡ self.now }
    {
        &self.octets[..self.len]
    }

    // Keeps what of the piece there is room for.
    pub(crate) fn keep(&mut self, piece: &[u8])
        ensures { self.new ≡ take 6 (self.old ++ piece.now) }
    {
        let added = piece.len().min(MOST - self.len);
        self.octets[self.len..self.len + added].copy_from_slice(&piece[..added]);
        self.len += added;
    }

    // Keeps no more than so many octets.
    pub(crate) fn cut(&mut self, size: u64)
        ensures { self.new ≡ take size self.old }
    {
        if size < self.len as u64 {
            self.len = size as usize;
        }
    }
}
