// What a stream is fed, and its end.
ghost use Rattle.std.specs.Prelude.{◌≡◌, ◌+◌, ◌-◌, ◌≤◌, ◌<◌, ℕ, List, ◌++◌, length, take, drop, IsSome, IfOk, OnOk, OnErr};
ghost use Rattle.edge_board.specs.Board.{Nowhere, IsSettled};
ghost use Rattle.edge_board.specs.Causes.{HasCause};
ghost use Rattle.edge_board.specs.Runs.{Touches};
ghost use Rattle.content_stream.specs.Wraps.{IsWrapSize};
ghost use Rattle.content_stream.specs.ImageBlocks.{RisesBy, RisesTo};
ghost use Rattle.package_attrs.specs.Image.{IsImage};
ghost use Rattle.content_stream.specs.Plans.{LiesBelow, InStream, blocks_begun};
ghost use Rattle.content_stream.specs.Streams.{IsFed, IsStreamed, fed_of, plan_of};

use crate::hashing::{digest_of, take_in};
use crate::storing::store;
use crate::{ContentStream, Streamed};
use block_pool::Blocks;
use edge_board::{Board, Failed};
use sha2::Digest;

/// Takes the next octets of the content: hashes them, and stores those of the image where the stream has
/// blocks. A block is erased when its first octet comes. The octets fed are at most the content's.
pub fn feed<B: Board>(stream: &mut ContentStream, board: &mut B, piece: &[u8]) -> Result<(), Failed>
    requires room { fed_of stream.old + length piece.now ≤ (plan_of stream.old).content_size }
    requires lies { LiesBelow (B.view board.old).blocks (plan_of stream.old) }
    ensures plan { plan_of stream.new ≡ plan_of stream.old }
    ensures count { OnOk result (fed_of stream.new ≡ fed_of stream.old + length piece.now) }
    ensures fed { (fed : List ℕ) → IsFed B.tells_cells stream.old fed (B.view board.old).cells
        → OnOk result (IsFed B.tells_cells stream.new (fed ++ piece.now) (B.view board.new).cells) }
    ensures err { OnErr result (stream.new ≡ stream.old) }
    ensures touches { Touches B.tells_cells (InStream (plan_of stream.old))
        (B.view board.old) (B.view board.new) }
    // As many blocks are erased as have begun: no more, and no fewer where the stream has blocks.
    ensures erased { RisesTo (blocks_begun (plan_of stream.old) (fed_of stream.old))
        (blocks_begun (plan_of stream.old) (fed_of stream.old + length piece.now))
        (B.view board.old).erased (B.view board.new).erased }
    ensures least { B.tells_moments → IsSome (plan_of stream.old).blocks → OnOk result (RisesBy
        (blocks_begun (plan_of stream.old) (fed_of stream.old))
        (blocks_begun (plan_of stream.old) (fed_of stream.old + length piece.now))
        (B.view board.old).erased (B.view board.new).erased) }
    ensures cause { HasCause (B.view board.old).faults (B.view board.new).faults result }
{
    let skipped = (stream.wrap_size.saturating_sub(stream.fed) as usize).min(piece.len());
    let image = &piece[skipped..];
    let stored = stream.fed.saturating_sub(stream.wrap_size);
    store(board, stream.base, &stream.blocks, stored, image)?;
    take_in(&mut stream.content, piece);
    stream.image.update(image);
    stream.fed += piece.len() as u32;
    Ok(())
}

/// Ends a stream whose whole content was fed: makes sure of the blocks, and gives what came of it.
pub fn finish<B: Board>(stream: ContentStream, board: &mut B) -> Result<Streamed, Failed>
    requires whole { fed_of stream ≡ (plan_of stream).content_size }
    requires lies { LiesBelow (B.view board.old).blocks (plan_of stream) }
    ensures streamed { (content image : List ℕ)
        → IsFed B.tells_cells stream content (B.view board.old).cells
        → IsWrapSize (length content) (take 6 content) (plan_of stream).wrap_size → IsImage content image
        → IfOk result (IsStreamed B.tells_cells (plan_of stream).base content image (B.view board.new)) }
    ensures blocks { IfOk result (λ streamed. streamed.blocks ≡ (plan_of stream).blocks) }
    ensures settled { B.tells_cells → OnOk result (IsSettled (B.view board.new)) }
    ensures cells { B.tells_cells → (B.view board.new).cells ≡ (B.view board.old).cells }
    ensures touches { Touches B.tells_cells Nowhere (B.view board.old) (B.view board.new) }
    ensures erased { (B.view board.new).erased ≡ (B.view board.old).erased }
    ensures cause { HasCause (B.view board.old).faults (B.view board.new).faults result }
{
    board.sync()?;
    let ContentStream {
        content,
        image,
        content_size,
        wrap_size,
        blocks,
        ..
    } = stream;
    let image_digest = image.finalize();
    Ok(Streamed {
        content_digest: digest_of(content, image_digest),
        image_digest,
        length: content_size - wrap_size,
        blocks,
    })
}

/// Ends a stream at any octet: leaves nothing pending, and gives the blocks back.
pub fn abandon<B: Board>(stream: ContentStream, board: &mut B) -> Result<Option<Blocks>, Failed>
    ensures blocks { IfOk result (λ blocks. blocks ≡ (plan_of stream).blocks) }
    ensures settled { B.tells_cells → OnOk result (IsSettled (B.view board.new)) }
    ensures cells { B.tells_cells → (B.view board.new).cells ≡ (B.view board.old).cells }
    ensures touches { Touches B.tells_cells Nowhere (B.view board.old) (B.view board.new) }
    ensures erased { (B.view board.new).erased ≡ (B.view board.old).erased }
    ensures cause { HasCause (B.view board.old).faults (B.view board.new).faults result }
{
    board.sync()?;
    let ContentStream { blocks, .. } = stream;
    Ok(blocks)
}
