//! The store of a module: what its flash says, in memory, opening it from a board, and installing a
//! package under power cuts. The layout, the manifests and what a flash recovers to are those of
//! `bank_layout`.
//!
//! - `Store` is a module, a sequence number, a state, the bank that runs, and the pool of its image
//!   blocks. A valid one is `IsStore`, and that it is what an image recovers to is `IsStoreOf`, both
//!   in `specs/Store`.
//! - `open` answers the store that the board recovers to (`store`, `recovers`), a valid one in which
//!   no block is live but those that the state names (`valid`, `quiet`, `blocks`). NotAModule comes
//!   exactly where no module holds the board (`not_a_module`, `refuses`): the factory gate isn't open
//!   over a module's record, the board is too small for it, or an open bank's manifest isn't valid.
//!   It changes nothing and sends nothing (`unchanged`, `touches`, `only_image`), leaves nothing
//!   pending (`settled`), and answers a fault exactly where the board counted one (`later`, `calm`,
//!   `fault`).
//! - `prepare` makes the install of a package ready whose image stands in live blocks: the state with
//!   the package, and the text of its manifest (`ready`, `made`). All memory of an install is
//!   taken here.
//! - `install` writes the manifest into the bank that doesn't run, behind its closed gate, and opens
//!   the gate over it. At every moment of it a power cut leaves what was there, or what is installed,
//!   the module and the row the same, and nothing was sent (`moments`). With Ok the board holds the
//!   new state alone, and the store is valid and says so (`holds`, `standing`, `installed`, `valid`),
//!   no block being live but those that the state names (`quiet`). It takes no memory, writes the
//!   spare bank's blocks alone (`touches`), and answers a fault exactly where the board counted one
//!   (`cause`). A bank has 33 blocks, each of which is erased once; 34 is the bound that is proved
//!   (`erased`).
//! - Laws: what writes no more than the blocks of a stream over the store's pool leaves the flash at
//!   each moment as one of the same store (`streams_have_no_say`: `stream`, `nothing`). A package
//!   with room in the blocks and the tables finds its blocks in the pool, and with them it can be
//!   prepared (`packages_with_room_can_be_prepared`: `blocks`, `ready`).
//!
//! Below it stand `bank_layout`, `bank_gate`, whose states keep the order of an install, `block_pool`,
//! `content_stream` with what a stream hands on, `config_table` and `module_record`. The loader's
//! loop stands above it.
//!
//! Whether the digest of a package is that of the octets in its blocks isn't asked: what is installed
//! is the octets that the blocks hold. A board isn't formatted here.
#![tactic(auto)]

mod fault;
mod installing;
mod laws;
mod opening;
mod store;

pub use fault::OpenFault;
pub use installing::{Ready, install, prepare};
pub use laws::{packages_with_room_can_be_prepared, streams_have_no_say};
pub use opening::open;
pub use store::Store;
