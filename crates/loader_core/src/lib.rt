//! A run of `load`: the firmware packages of a source (RFC 4108), judged and answered one after the
//! other.
//!
//! - `load` opens the store of the module that holds the board, and answers each item of the source
//!   before the next octet is asked for. What it leaves is `LoadRuns` (`runs`): how it ended and why,
//!   what it took, exactly the answers that it sent and what the board recovers to, what a power cut at
//!   any of its moments leaves, whatever the ending, and how many blocks were erased at most and at
//!   least. Where no module holds the board nothing is taken or sent, and the cells stay.
//! - Over a module's board and an input within the limit, and where no call failed, all items were
//!   answered, or memory was wanting (`complete`).
//! - `answer_items` is the loop, over a store that is open: all items answered (`runs`), or those
//!   before the one at which a fault came (`breaks`).
//! - `each_cut_finds_a_prefix` is the headline over runs on a board: of one run (`finds`, `all`,
//!   `round`), and of runs one after the other from a fresh module on (`life`).
//!
//! Endings and runs stand in specs/Loading, power cuts and runs one after the other in specs/Cuts;
//! specs/Loops and specs/Endings are for proofs. Below stand `load_item` with one item, `module_store`
//! with the store, and `load_claims` with what is claimed, whose laws over definitions this crate gives
//! on. Nothing here knows of banks, gates or blocks. The one tree of the module's key is made here, and
//! its nodes are computed at the first answer that is signed.
#![tactic(auto)]

mod items;
mod laws;
mod loading;

pub use items::answer_items;
pub use laws::each_cut_finds_a_prefix;
pub use load_claims::{
    cuts_are_rounds, headline, kept_of_all_items, lives_end_as_they_answered,
    no_items_are_without_verdicts, no_leaf_answers_twice, one_item_carries_to_the_list,
    one_list_of_verdicts,
};
pub use loading::{Ending, load};
