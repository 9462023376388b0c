// A content on its way into free blocks, from its first octet on.
ghost use Rattle.std.specs.Prelude.{◌≡◌, ◌+◌, ◌≤◌, ◌<◌, ◌++◌, [], ℕ, Bool, List, length, min, take};
ghost use Rattle.std.specs.Prelude.{IfOk, OnOk, MatchOption, None};
ghost use Rattle.edge_board.specs.Runs.{Touches};
ghost use Rattle.package_attrs.specs.Image.{blocks_for};
ghost use Rattle.content_stream.specs.Plans.{InFree};
ghost use Rattle.load_input.specs.Causes.{HasLoadCause};
ghost use Rattle.item_intake.specs.Inflows.{Start, Streams, Gathered, IsInflow, RisesAtMost};

use crate::fault::TakeFault;
use block_pool::Pool;
use content_stream::{ContentStream, blocks_lie_below, blocks_were_free, feed};
use edge_board::Board;
use std::alloc::Global;

// The block of the flash that is the pool's block 0.
const BASE: u32 = 84;

/// A content of which octets have come: its first octets, until there are enough to begin a stream,
/// and then the stream.
#[derive(Drop)]
pub struct Inflow {
    pub(crate) front: Vec<u8>,
    pub(crate) stream: Option<ContentStream>,
}

// How many octets of a content of this size a stream begins with.
fn front_size(size: u32) -> u32
    ensures { result ≡ min 6 size }
{
    if size < 6 { size } else { 6 }
}

// Feeds the next octets to a stream.
fn feed_more<B: Board>(
    stream: &mut ContentStream,
    board: &mut B,
    piece: &[u8],
) -> Result<(), TakeFault>
    requires some { (size : ℕ) × (start : Start) × (pool : List Bool) × (content : List ℕ)
        × Streams B.tells_cells B.tells_moments size start pool (B.view board.old) stream.old content
        × (length content + length piece.now ≤ size) }
    ensures streams { (size : ℕ) (start : Start) (pool : List Bool) (content : List ℕ)
        → Streams B.tells_cells B.tells_moments size start pool (B.view board.old) stream.old content
        → length content + length piece.now ≤ size
        → OnOk result (Streams B.tells_cells B.tells_moments size start pool (B.view board.new) stream.new
        (content ++ piece.now)) }
    ensures touches { (size : ℕ) (start : Start) (pool : List Bool) (content : List ℕ)
        → Streams B.tells_cells B.tells_moments size start pool (B.view board.old) stream.old content
        → Touches B.tells_cells (InFree 84 start.pool) (B.view board.old) (B.view board.new) }
    ensures erased { (size : ℕ) (start : Start) (pool : List Bool) (content : List ℕ)
        → Streams B.tells_cells B.tells_moments size start pool (B.view board.old) stream.old content
        → RisesAtMost (blocks_for (length content + length piece.now)) start.erased
        (B.view board.new).erased }
    ensures device { HasLoadCause TakeFault.Device
        (B.view board.old).faults (B.view board.new).faults result }
{
    blocks_were_free();
    blocks_lie_below();
    feed(stream, board, piece)?;
    Ok(())
}

// Begins a stream of a content of this size, of which the front has come, and feeds it that.
pub(crate) fn open_stream<B: Board>(
    alloc: Global,
    pool: &mut Pool,
    board: &mut B,
    size: u32,
    front: &[u8],
) -> Result<ContentStream, TakeFault>
    requires front { length front.now ≡ min 6 size }
    requires lies { 84 + length pool.old ≤ (B.view board.old).blocks }
    ensures streams { IfOk result (λ stream. Streams B.tells_cells B.tells_moments size
        (record { pool = pool.old; erased = (B.view board.old).erased })
        pool.new (B.view board.new) stream front.now) }
    ensures touches { Touches B.tells_cells (InFree 84 pool.old) (B.view board.old) (B.view board.new) }
    ensures erased { RisesAtMost (blocks_for (length front.now))
        (B.view board.old).erased (B.view board.new).erased }
    ensures device { HasLoadCause TakeFault.Device
        (B.view board.old).faults (B.view board.new).faults result }
{
    blocks_were_free();
    blocks_lie_below();
    let mut stream = ContentStream::new(alloc, pool, BASE, size, front)?;
    feed(&mut stream, board, front)?;
    Ok(stream)
}

// The same, with the octets behind the front that have come.
fn start_stream<B: Board>(
    alloc: Global,
    pool: &mut Pool,
    board: &mut B,
    size: u32,
    front: &[u8],
    piece: &[u8],
) -> Result<ContentStream, TakeFault>
    requires front { length front.now ≡ min 6 size }
    requires room { length front.now + length piece.now ≤ size }
    requires lies { 84 + length pool.old ≤ (B.view board.old).blocks }
    ensures streams { IfOk result (λ stream. Streams B.tells_cells B.tells_moments size
        (record { pool = pool.old; erased = (B.view board.old).erased })
        pool.new (B.view board.new) stream (front.now ++ piece.now)) }
    ensures touches { Touches B.tells_cells (InFree 84 pool.old) (B.view board.old) (B.view board.new) }
    ensures erased { RisesAtMost (blocks_for (length front.now + length piece.now))
        (B.view board.old).erased (B.view board.new).erased }
    ensures device { HasLoadCause TakeFault.Device
        (B.view board.old).faults (B.view board.new).faults result }
{
    let mut stream = open_stream(alloc, pool, board, size, front)?;
    feed_more(&mut stream, board, piece)?;
    Ok(stream)
}

// Gathers the content's first octets, and begins a stream where they are there.
fn begin<B: Board>(
    alloc: Global,
    front: &mut Vec<u8>,
    pool: &mut Pool,
    board: &mut B,
    size: u32,
    piece: &[u8],
) -> Result<Option<ContentStream>, TakeFault>
    requires some { (start : Start) × (content : List ℕ)
        × Gathered B.tells_cells size start pool.old (B.view board.old) front.old.items content
        × (length content + length piece.now ≤ size) }
    ensures inflow { (start : Start) (content : List ℕ)
        → Gathered B.tells_cells size start pool.old (B.view board.old) front.old.items content
        → length content + length piece.now ≤ size
        → IfOk result (λ stream. MatchOption stream
        (Gathered B.tells_cells size start pool.new (B.view board.new) front.new.items
        (content ++ piece.now))
        (λ s. Streams B.tells_cells B.tells_moments size start pool.new (B.view board.new) s
        (content ++ piece.now))) }
    ensures touches { (start : Start) (content : List ℕ)
        → Gathered B.tells_cells size start pool.old (B.view board.old) front.old.items content
        → Touches B.tells_cells (InFree 84 start.pool) (B.view board.old) (B.view board.new) }
    ensures erased { (start : Start) (content : List ℕ)
        → Gathered B.tells_cells size start pool.old (B.view board.old) front.old.items content
        → RisesAtMost (blocks_for (length content + length piece.now)) start.erased
        (B.view board.new).erased }
    ensures device { HasLoadCause TakeFault.Device
        (B.view board.old).faults (B.view board.new).faults result }
{
    let wanted = front_size(size) as usize;
    let n = (wanted - front.len()).min(piece.len());
    front.extend_from_slice(&piece[..n])?;
    if front.len() < wanted {
        return Ok(None);
    }
    let stream = start_stream(alloc, pool, board, size, front, &piece[n..])?;
    Ok(Some(stream))
}

impl Inflow {
    // A content of which nothing has come.
    pub(crate) fn new(alloc: Global) -> Inflow
        ensures front { result.front.items ≡ [] }
        ensures none { result.stream ≡ None }
    {
        Inflow {
            front: Vec::new(alloc),
            stream: None,
        }
    }

    // Takes the next octets of a content of this size.
    pub(crate) fn take<B: Board>(
        &mut self,
        alloc: Global,
        pool: &mut Pool,
        board: &mut B,
        size: u32,
        piece: &[u8],
    ) -> Result<(), TakeFault>
        requires some { (start : Start) × (content : List ℕ)
            × IsInflow B.tells_cells B.tells_moments size start pool.old (B.view board.old) self.old content
            × (length content + length piece.now ≤ size) }
        ensures inflow { (start : Start) (content : List ℕ)
            → IsInflow B.tells_cells B.tells_moments size start pool.old (B.view board.old) self.old content
            → length content + length piece.now ≤ size
            → OnOk result (IsInflow B.tells_cells B.tells_moments size start pool.new (B.view board.new)
            self.new (content ++ piece.now)) }
        ensures touches { (start : Start) (content : List ℕ)
            → IsInflow B.tells_cells B.tells_moments size start pool.old (B.view board.old) self.old content
            → Touches B.tells_cells (InFree 84 start.pool) (B.view board.old) (B.view board.new) }
        ensures erased { (start : Start) (content : List ℕ)
            → IsInflow B.tells_cells B.tells_moments size start pool.old (B.view board.old) self.old content
            → RisesAtMost (blocks_for (length content + length piece.now)) start.erased
            (B.view board.new).erased }
        ensures device { HasLoadCause TakeFault.Device
            (B.view board.old).faults (B.view board.new).faults result }
    {
        if let Some(stream) = &mut self.stream {
            return feed_more(stream, board, piece);
        }
        self.stream = begin(alloc, &mut self.front, pool, board, size, piece)?;
        Ok(())
    }
}
