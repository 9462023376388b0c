// The words that a run is asked by.
ghost use Rattle.std.specs.Prelude.{◌≡◌, ◌↔◌, ◌∷◌, [], Some};
ghost use Rattle.fwload_top.specs.Words.{Asks, Denotes};

use der_core::{Moment, read_decimal_moment};

/// What the words ask for.
#[derive(Clone, Copy, Debug, PartialEq, Eq)]
pub enum Command {
    /// Print the identifier that the input spells.
    Ident,
    /// Say whether a signature of a message holds under an HSS key.
    Sigcheck,
    /// Judge the attribute sets of the input as a module would that has nothing installed at first.
    /// The moment is printed, and means nothing else.
    Rehearse(Moment),
    /// Explain the verdict on the package that the input is, at a moment, by the module that holds the
    /// board: what its path permits, and the condition that it fails first.
    Explain(Moment),
    /// Make a key board of a board that nobody holds, by the key recipe that the input is.
    KeyNew,
    /// Make a module's board of a board that nobody holds, by the module recipe that the input is.
    Make,
    /// Print the module that holds the board, and what is installed.
    List,
    /// Sign the certificate of the recipe that the input is, with the next leaf of the board's key.
    Issue,
    /// Sign the package of the recipe that the input is, with the next leaf of the board's key.
    Pack,
    /// Load packages at a moment: judge each item of the input by the module that holds the board,
    /// install it if it is accepted, and answer it before the next one is read.
    Load(Moment),
}

// The command that the words ask for: the flash file's name, and then the command's.
pub(crate) fn command_of(words: &[String]) -> Option<Command>
    ensures asked { (c : Command) → (result ≡ Some c) ↔ Asks words.now c }
{
    match words {
        [_, word] => without_argument(word),
        [_, word, argument] => with_moment(word, argument),
        _ => None,
    }
}

// The command that is one word.
fn without_argument(word: &str) -> Option<Command>
    ensures { (c : Command) → (result ≡ Some c) ↔ Denotes (word.now ∷ []) c }
{
    if word == "ident" {
        Some(Command::Ident)
    } else if word == "sigcheck" {
        Some(Command::Sigcheck)
    } else if word == "key-new" {
        Some(Command::KeyNew)
    } else if word == "make" {
        Some(Command::Make)
    } else if word == "list" {
        Some(Command::List)
    } else if word == "issue" {
        Some(Command::Issue)
    } else if word == "pack" {
        Some(Command::Pack)
    } else {
        None
    }
}

// The command that is one word with a moment.
fn with_moment(word: &str, digits: &str) -> Option<Command>
    ensures { (c : Command) → (result ≡ Some c) ↔ Denotes (word.now ∷ digits.now ∷ []) c }
{
    let at = read_decimal_moment(digits.as_bytes())?;
    if word == "rehearse" {
        Some(Command::Rehearse(at))
    } else if word == "explain" {
        Some(Command::Explain(at))
    } else if word == "load" {
        Some(Command::Load(at))
    } else {
        None
    }
}
