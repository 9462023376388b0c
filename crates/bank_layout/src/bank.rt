// The two banks of a module.
ghost use Rattle.std.specs.Prelude.{◌≡◌};
ghost use Rattle.bank_layout.specs.Layout.{other, place_of};

use crate::layout::FIRST_IMAGE_BLOCK;
use bank_gate::Place;

/// One of the two banks of a module's flash: a gate, and a manifest behind it.
#[derive(Clone, Copy, Debug, PartialEq, Eq)]
pub enum Bank {
    Zero,
    One,
}

impl Bank {
    pub fn other(self) -> Bank
        ensures other { result ≡ other self }
    {
        match self {
            Bank::Zero => Bank::One,
            Bank::One => Bank::Zero,
        }
    }

    /// Where the bank's gate and manifest lie: 33 blocks from block 18 or block 51 on, without an
    /// area.
    pub fn place(self) -> Place
        ensures place { result ≡ place_of self }
    {
        let gate = match self {
            Bank::Zero => 18,
            Bank::One => 51,
        };
        Place {
            gate,
            manifest: gate + 1,
            manifest_blocks: 32,
            area: FIRST_IMAGE_BLOCK,
            area_blocks: 0,
        }
    }
}
