// Octets that are put into blocks, one after the other.
ghost use Rattle.std.specs.Prelude.{◌≡◌, ◌+◌, ◌-◌, ◌*◌, ◌^◌, ◌≤◌, ◌<◌, ℕ, List, [], ◌++◌, length, slice_index, slice_index_or, unwrap_or, IsSome, OnOk};
ghost use Rattle.edge_board.specs.Board.{InBlock, cell};
ghost use Rattle.edge_board.specs.Causes.{HasCause};
ghost use Rattle.edge_board.specs.Runs.{Touches};
ghost use Rattle.block_pool.specs.Numbers.{IsApart};
ghost use Rattle.content_stream.specs.ImageBlocks.{InImageBlocks, IsStored, IsBlank};
ghost use Rattle.package_attrs.specs.Image.{blocks_for};
ghost use Rattle.content_stream.specs.ImageBlocks.{Holds, KeepsFront, RisesBy, RisesTo};

use block_pool::Blocks;
use edge_board::{BLOCK, Board, Failed};

// Stores the image's next octets, where there are blocks.
pub(crate) fn store<B: Board>(
    board: &mut B,
    base: u32,
    blocks: &Option<Blocks>,
    stored: u32,
    image: &[u8],
) -> Result<(), Failed>
    requires fits { IsSome blocks.now
        → stored + length image.now ≤ 4096 * length (unwrap_or blocks.now []) }
    requires small { stored + length image.now < 2 ^ 32 }
    requires lies { (k : ℕ) → k < length (unwrap_or blocks.now [])
        → base + slice_index (unwrap_or blocks.now []) k < (B.view board.old).blocks }
    ensures touches { Touches B.tells_cells (InImageBlocks base (unwrap_or blocks.now []))
        (B.view board.old) (B.view board.new) }
    ensures stored { B.tells_cells → IsSome blocks.now → (before : List ℕ) → length before ≡ stored
        → IsStored base (unwrap_or blocks.now []) before (B.view board.old).cells
        → OnOk result (IsStored base (unwrap_or blocks.now []) (before ++ image.now)
        (B.view board.new).cells) }
    ensures erased { RisesTo (blocks_for stored) (blocks_for (stored + length image.now))
        (B.view board.old).erased (B.view board.new).erased }
    ensures least { B.tells_moments → IsSome blocks.now → OnOk result
        (RisesBy (blocks_for stored) (blocks_for (stored + length image.now))
        (B.view board.old).erased (B.view board.new).erased) }
    ensures cause { HasCause (B.view board.old).faults (B.view board.new).faults result }
{
    match blocks {
        Some(blocks) => store_parts(board, base, blocks.numbers(), stored, image),
        None => Ok(()),
    }
}

// Stores the image's next octets, block by block.
fn store_parts<B: Board>(
    board: &mut B,
    base: u32,
    numbers: &[u16],
    stored: u32,
    image: &[u8],
) -> Result<(), Failed>
    requires fits { stored + length image.now ≤ 4096 * length numbers.now }
    requires small { stored + length image.now < 2 ^ 32 }
    requires apart { IsApart numbers.now }
    requires lies { (k : ℕ) → k < length numbers.now
        → base + slice_index numbers.now k < (B.view board.old).blocks }
    ensures touches { Touches B.tells_cells (InImageBlocks base numbers.now)
        (B.view board.old) (B.view board.new) }
    ensures stored { B.tells_cells → (before : List ℕ) → length before ≡ stored
        → IsStored base numbers.now before (B.view board.old).cells
        → OnOk result (IsStored base numbers.now (before ++ image.now) (B.view board.new).cells) }
    ensures erased { RisesTo (blocks_for stored) (blocks_for (stored + length image.now))
        (B.view board.old).erased (B.view board.new).erased }
    ensures least { B.tells_moments → OnOk result
        (RisesBy (blocks_for stored) (blocks_for (stored + length image.now))
        (B.view board.old).erased (B.view board.new).erased) }
    ensures cause { HasCause (B.view board.old).faults (B.view board.new).faults result }
{
    let mut done = 0;
    while done < image.len() {
        let at = stored as usize + done;
        let place = at % BLOCK as usize;
        let number = numbers[at / BLOCK as usize];
        let size = (BLOCK as usize - place).min(image.len() - done);
        let part = &image[done..done + size];
        store_part(board, base + u32::from(number), place as u32, part)?;
        done += size;
    }
    Ok(())
}

// Puts octets into a block from a place on, behind those that stand there. A block is erased
// before its first octet is put.
fn store_part<B: Board>(board: &mut B, block: u32, place: u32, part: &[u8]) -> Result<(), Failed>
    requires block { block < (B.view board.old).blocks }
    requires place { place < 4096 }
    requires fits { place + length part.now ≤ 4096 }
    ensures touches { Touches B.tells_cells (InBlock block)
        (B.view board.old) (B.view board.new) }
    ensures holds { B.tells_cells → (0 < place → IsBlank block place (B.view board.old).cells)
        → OnOk result (Holds block place part.now (B.view board.new).cells) }
    ensures front { B.tells_cells → OnOk result (KeepsFront block place
        (B.view board.old).cells (B.view board.new).cells) }
    ensures erased { (B.view board.old).erased ≤ (B.view board.new).erased }
    ensures most { (B.view board.new).erased + blocks_for place
        ≤ (B.view board.old).erased + 1 }
    ensures least { B.tells_moments → OnOk result ((B.view board.old).erased + 1
        ≤ (B.view board.new).erased + blocks_for place) }
    ensures cause { HasCause (B.view board.old).faults (B.view board.new).faults result }
{
    begin_block(board, block, place)?;
    board.program(BLOCK * block + place, part)?;
    Ok(())
}

// Erases a block that nothing stands in yet.
fn begin_block<B: Board>(board: &mut B, block: u32, place: u32) -> Result<(), Failed>
    requires block { block < (B.view board.old).blocks }
    requires place { place < 4096 }
    ensures touches { Touches B.tells_cells (InBlock block)
        (B.view board.old) (B.view board.new) }
    ensures blank { B.tells_cells → (0 < place → IsBlank block place (B.view board.old).cells)
        → OnOk result (IsBlank block place (B.view board.new).cells) }
    ensures front { B.tells_cells → OnOk result (KeepsFront block place
        (B.view board.old).cells (B.view board.new).cells) }
    ensures erased { (B.view board.old).erased ≤ (B.view board.new).erased }
    ensures most { (B.view board.new).erased + blocks_for place
        ≤ (B.view board.old).erased + 1 }
    ensures least { B.tells_moments → OnOk result ((B.view board.old).erased + 1
        ≤ (B.view board.new).erased + blocks_for place) }
    ensures cause { HasCause (B.view board.old).faults (B.view board.new).faults result }
{
    if place > 0 {
        return Ok(());
    }
    board.erase(block)
}
