//! The firmware loader's commands, over a source of octets and a board.
//!
//! `run` is the call that the program makes. Five clauses say what is proved of it, for every
//! source and board:
//!
//! - Usage comes exactly where the words are no command (`usage`), and then the source and the
//!   board are as they were (`untouched`).
//! - For every command (`causes`, whose record is `HasCauses`): a fault is answered exactly where a
//!   call on that object failed, so no failed call is passed over; InputTooLong exactly where more
//!   octets than the command's limit were taken, and then it is one more; and with NotAModule and
//!   KeySpent nothing is sent.
//! - What a run comes to (`answers`): a command that answers once, at its end, has a meaning, which
//!   says row by row how it ends, what it sends, over which board and input it comes to that, and
//!   what it makes of the flash. The run sent exactly that line, or a front of it where the board
//!   failed; a power cut at any moment leaves what that row allows, from the first octet of the
//!   line on what the line says; where no row over the board reads the input, the source stays as
//!   it was; and a command that writes no flash leaves it, however it ends (`AnswersOnce`). `load`
//!   answers as it goes, and leaves what the loader promises (`RunsLoad`).
//! - Where the board and the input are as the command needs and no call fails, the command is done,
//!   or memory is wanting (`complete`): a refusal, a fault or too long an input isn't answered.
//!
//! The meanings, each a table in a file of specs/:
//!
//! - `ident` prints the identifier whose text the whole input is, and refuses any other input (RFC
//!   4108, section 2.2.3).
//! - `sigcheck` says whether a signature of a message holds under a key (RFC 8554, section 6).
//! - `rehearse` prints the verdict on each attribute set of the input, over what the accepted ones
//!   before it have installed, and then what is installed (RFC 4108, section 2.2). A set has one
//!   verdict at most over a state, and an input one answer: that is the law `one_rehearsal`.
//! - `key-new` makes a key board of a board that nobody holds, and `make` a module's.
//! - `list` prints the module that holds the board, how far it has come, and what is installed.
//! - `explain` prints what the path of a package permits, and the verdict on it by the module that
//!   holds the board: accepted exactly where all 41 conditions hold (RFC 4108, RFC 5652, RFC 5280,
//!   RFC 6010).
//! - `issue` and `pack` send the certificate and the package whose recipe the input is, signed with
//!   the next leaf of the key that holds the board (RFC 5280, section 4.1; RFC 4108, section 2). What a
//!   power cut at any moment of them leaves is a run that signs with that leaf, or one that signs
//!   nothing: that is the law `cuts_leave_signing_runs` (`runs`, `holds`).
//! - `load` judges, installs and answers packages, one after the other (RFC 4108): its meaning is
//!   `LoadRuns` of `loader_core`.
//! - `ident`, `sigcheck`, `rehearse`, `list` and `explain` write no flash: that is the law
//!   `no_flash_is_written`.
//!
//! Over every list of runs of all commands, and power cuts inside and between them:
//!
//! - What a power cut leaves of a run is what its command says of one: the law `cuts_are_rounds`.
//! - On the board of a key or a module no two signed outputs and answers of which any octet was sent
//!   have the same leaf: the law `no_leaf_is_used_twice` (`runs`, `loads`, `ascends`).
//! - From the board on that `make` leaves, recovery finds what the packages make that the runs of `load`
//!   installed: a prefix of those that each accepted, which holds each one whose receipt was sent whole.
//!   That is the law `headline_over_all_runs`; docs/HEADLINE.md goes through its words.
//!
//! Below it stand `edge_board` (the source and the board), `attribute_set` and `package_attrs`
//! (attributes, identifiers and packages), `config_table` and `package_rules` (the tables and the
//! rules over them), `report_text` (lines), `hss_chain` (signatures), `lms_sign` (signing keys),
//! `recipe_text` (recipes), `packager` (certificates and packages), `key_state` (leaves),
//! `bank_store` (whether a board is held, and formats), `module_store` (the store of a module),
//! `bank_layout` (what a flash recovers to), `loader_core` (a run of `load`) and `load_claims` (what is
//! claimed of such runs). The program `fwload` hands it the words, standard input
//! and the flash; the crate `run_rows` has its tests.
//!
//! What was read is known only of a source that tells what it has left, and the cells and moments
//! of a run only of a board that tells them. Images are known where nothing was pending at the
//! start. No clause says when memory is wanting, nor how long a run takes. A rehearsal asks neither
//! signatures nor the type of the content, and its packages have no image.
//!
//! A further command that answers once is a variant of `Command`, its words in `words_of`, its
//! meaning, and its line in `promise`. One that answers as it goes has a promise of its own there,
//! with its limit and its records.
#![tactic(auto)]

mod bad_line;
mod dispatch;
mod explain;
mod ident;
mod identity;
mod input;
mod key_line;
mod laws;
mod list;
mod load;
mod making;
mod rehearsal;
mod rehearse;
mod reply;
mod sigcheck;
mod signing;
mod status;
mod step;
mod triple;
mod unopened;
mod words;

pub use dispatch::run;
pub use laws::{
    cuts_are_rounds, cuts_leave_signing_runs, headline_over_all_runs, no_flash_is_written,
    no_leaf_is_used_twice, one_rehearsal,
};
pub use making::{HolderKind, NewHolder};
pub use signing::Product;
pub use status::Status;
pub use words::Command;
