//! A content that is hashed as it comes, and whose image goes into free blocks of the flash meanwhile,
//! before anything is known of the package around it. The blocks are this project's own; the image in
//! a content is that of RFC 4108, section 2.1.5.
//!
//! - `image_length` tells by a content's length and its first six octets how long its image is
//!   (`wrap`, `image`).
//! - `ContentStream::new` takes the image's blocks from the pool, where that has enough (`plan`).
//! - `feed` hashes the next octets and stores those of the image, each block erased before its first
//!   octet is put (`fed`). It stores as it goes: the blocks that are begun are exactly as many as the
//!   image's octets so far need (`erased`, `least`). A failure leaves the stream as it was (`err`).
//! - `finish` gives the digest of the content, the digest and the length of its image, and blocks that
//!   read as the image after each power cut (`streamed`, `blocks`). `abandon` gives the blocks back
//!   (`blocks`). Both leave nothing pending (`settled`, `cells`).
//! - Whatever the three answer, at each moment since they began the flash differs in the stream's own
//!   blocks alone, and nothing was sent (`touches`); a fault is answered exactly where the board
//!   counted one (`cause`).
//! - Laws: a stream's blocks were free ones of the pool (`blocks_were_free`), and lie in each flash in
//!   which the pool lies (`blocks_lie_below`). Each content has an image, the octets behind its wrap
//!   (`each_content_has_an_image`: `some`, `rest`, `only`), so `streamed` tells of each.
//!
//! Below it stand `block_pool`, `edge_board`, `der_core`, `package_attrs` with what an image is, and
//! `sha2`. The store of a module and the loader's loop stand above it.
//!
//! No octet is kept or copied, so none of the three takes memory. Which digest is the right one, and
//! what becomes of the blocks, is for the callers to say.
#![tactic(auto)]

mod content_stream;
mod feeding;
mod hashing;
mod laws;
mod storing;
mod taking;
mod wrap;

pub use content_stream::{ContentStream, Streamed};
pub use feeding::{abandon, feed, finish};
pub use laws::{blocks_lie_below, blocks_were_free, each_content_has_an_image};
pub use wrap::image_length;
