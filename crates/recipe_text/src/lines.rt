ghost use Rattle.std.specs.Prelude.{◌≡◌, ◌+◌, ◌-◌, ◌^◌, ◌<◌, ◌++◌, ◌==◌, [], ◌∷◌, length, IfSome};
ghost use Rattle.std.specs.Prelude.{IfNone, false, ℕ, List};
ghost use Rattle.recipe_text.specs.Lines.{IsLine, is_skipped};
ghost use Rattle.recipe_text.specs.Passing.{Place, Skips};

use crate::bad_line::BadLine;
use crate::cut::cut_at;
use std::marker::Model;

// A text that is read line by line, seen as what hasn't been passed and the count of lines that
// have.
#[derive(Drop)]
pub(crate) struct Lines<'a> {
    rest: &'a [u8],
    number: u32,
}

impl<'a> Model for Lines<'a> {
    ghost use Rattle.std.specs.Prelude.{◌+◌, ◌-◌, ◌^◌, ◌<◌, length};
    ghost use Rattle.recipe_text.specs.Passing.{Place};

    ghost Value = { Place };

    ghost view = { λ l. record { rest = l.rest.now; number = l.number } };

    ghost invariant = { λ l. l.number + length l.rest.now < 2 ^ 32 - 1 };
}

impl<'a> Lines<'a> {
    // The front of a text.
    pub(crate) fn new(text: &'a [u8]) -> Lines<'a>
        requires fits { length text.now < 2 ^ 32 - 1 }
        ensures rest { result.rest ≡ text.now }
        ensures number { result.number ≡ 0 }
    {
        Lines {
            rest: text,
            number: 0,
        }
    }

    // Passes a whole line.
    fn pass(&mut self) -> Option<&'a [u8]>
        ensures found { IfSome result (λ line. IsLine line.now
            × (self.old.rest ≡ line.now ++ 10 ∷ self.new.rest)
            × (self.new.number ≡ self.old.number + 1)) }
        ensures none { IfNone result (IsLine self.old.rest × (self.new ≡ self.old)) }
    {
        let (line, rest) = cut_at(self.rest, b'\n')?;
        self.rest = rest;
        self.number += 1;
        Some(line)
    }

    // Passes whole lines up to the next one that counts, or all where none does.
    pub(crate) fn next(&mut self) -> Option<&'a [u8]>
        ensures found { IfSome result (λ line. IsLine line.now × (is_skipped line.now ≡ false)
            × (skipped : List (List ℕ))
            × Skips self.old.rest skipped (line.now ++ 10 ∷ self.new.rest)
            × (self.new.number ≡ self.old.number + length skipped + 1)) }
        ensures none { IfNone result (IsLine self.new.rest
            × (skipped : List (List ℕ)) × Skips self.old.rest skipped self.new.rest
            × (self.new.number ≡ self.old.number + length skipped)) }
    {
        while let Some(line) = self.pass() {
            if !is_skipped(line) {
                return Some(line);
            }
        }
        None
    }

    // The line that was passed last, as the first bad one.
    pub(crate) fn here(&self) -> BadLine
        ensures { result.0 ≡ self.now.number }
    {
        BadLine(self.number)
    }

    // The line behind those that were passed, as the first bad one.
    pub(crate) fn behind(&self) -> BadLine
        ensures { result.0 ≡ self.now.number + 1 }
    {
        BadLine(self.number + 1)
    }

    // Whether nothing is left.
    pub(crate) fn at_end(&self) -> bool
        ensures { result ≡ (length self.now.rest == 0) }
    {
        self.rest.is_empty()
    }
}

// Whether a line is empty or a comment.
fn is_skipped(line: &[u8]) -> bool
    ensures { result ≡ is_skipped line.now }
{
    match line {
        [] => true,
        [first, ..] => *first == b'#',
    }
}
