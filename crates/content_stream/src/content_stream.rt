// A content on its way into the flash.
ghost use Rattle.std.specs.Prelude.{◌≡◌, ◌≤◌, ◌-◌, true, false, [], is_some, unwrap_or, length};
ghost use Rattle.block_pool.specs.Numbers.{IsApart};
ghost use Rattle.package_attrs.specs.Image.{blocks_for};

use crate::hashing::content_hash;
use crate::taking::take_blocks;
use crate::wrap::wrap_size;
use block_pool::{Blocks, Pool};
use edge_board::BLOCK;
use sha2::{Digest, Sha256};
use std::alloc::{AllocError, Global};

/// A content that is hashed as it comes, and whose image goes into blocks of a pool, where the pool
/// had enough. It keeps no octet. A stream that is dropped leaves its blocks live.
#[derive(Drop)]
pub struct ContentStream {
    // a hash of the content's octets so far, where something stands before the image, and one of the
    // image's among them
    pub(crate) content: Option<Sha256>,
    pub(crate) image: Sha256,
    // how many octets the content has, and how many of them stand before the image
    pub(crate) content_size: u32,
    pub(crate) wrap_size: u32,
    pub(crate) fed: u32,
    pub(crate) base: u32,
    pub(crate) blocks: Option<Blocks>,
    ghost few: { fed ≤ content_size },
    ghost wrap: { wrap_size ≤ content_size },
    ghost short: { wrap_size ≤ 6 },
    ghost bare: { is_some content ≡ false → wrap_size ≡ 0 },
    ghost enough: { is_some blocks ≡ true
        → length (unwrap_or blocks []) ≡ blocks_for (content_size - wrap_size) },
    ghost apart: { IsApart (unwrap_or blocks []) },
}

/// What came of a whole content.
#[derive(Drop)]
pub struct Streamed {
    /// The SHA-256 of the content.
    pub content_digest: [u8; 32],
    /// The SHA-256 of the image in it.
    pub image_digest: [u8; 32],
    /// How many octets the image has.
    pub length: u32,
    /// The blocks in which the image stands. None where the pool had fewer free.
    pub blocks: Option<Blocks>,
}

impl ContentStream {
    ghost use Rattle.std.specs.Prelude.{◌≡◌, ℕ, List, [], length, min, IfOk, OnErr};
    ghost use Rattle.content_stream.specs.Plans.{IsPlanned};
    ghost use Rattle.content_stream.specs.Streams.{IsFed, fed_of, plan_of};

    /// A stream of a content of so many octets that begins with `front`: its first six, or all where it
    /// has fewer. Block n of the pool is block `base` + n of the flash.
    pub fn new(
        _alloc: Global,
        pool: &mut Pool,
        base: u32,
        content_size: u32,
        front: &[u8],
    ) -> Result<ContentStream, AllocError>
        requires front { length front.now ≡ min 6 content_size }
        ensures plan { IfOk result (λ stream.
            IsPlanned base content_size front.now pool.old pool.new (plan_of stream)) }
        ensures none { IfOk result (λ stream. fed_of stream ≡ 0) }
        ensures fed { IfOk result (λ stream. (cells : List ℕ) → IsFed (Unit {0}) stream [] cells) }
        ensures err { OnErr result (pool.new ≡ pool.old) }
    {
        let wrap_size = wrap_size(content_size, front);
        let blocks = take_blocks(pool, (content_size - wrap_size).div_ceil(BLOCK))?;
        Ok(ContentStream {
            content: content_hash(wrap_size),
            image: Sha256::new(),
            content_size,
            wrap_size,
            fed: 0,
            base,
            blocks,
        })
    }
}
