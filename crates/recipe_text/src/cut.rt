// Octets that are cut at the first octet of a kind, and compared with a word.
ghost use Rattle.std.specs.Prelude.{◌≡◌};
ghost use Rattle.der_core.specs.Reads.{Answers};
ghost use Rattle.recipe_text.specs.Reading.{cut, is_word};

use memchr::memchr;

// The octets before the first such octet, and those behind it.
pub(crate) fn cut_at(octets: &[u8], at: u8) -> Option<(&[u8], &[u8])>
    ensures exact { Answers (λ x. (x.0.now, x.1.now)) result (cut at octets.now) }
{
    let place = memchr(at, octets)?;
    Some((&octets[..place], &octets[place + 1..]))
}

// Whether a word is this one.
pub(crate) fn is_word(word: &[u8], this: &[u8]) -> bool
    ensures { result ≡ is_word word.now this.now }
{
    word == this
}
