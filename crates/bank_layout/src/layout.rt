// Where the parts of a board lie, in blocks of 4,096 octets.
use bank_gate::Place;
use edge_board::BLOCK;
use key_state::KEY_BLOCK;

/// The factory's bank: its gate is block 0, its record lies in blocks 1 to 16, and its area is the
/// key block.
pub const FACTORY: Place = Place {
    gate: 0,
    manifest: 1,
    manifest_blocks: 16,
    area: KEY_BLOCK,
    area_blocks: 1,
};

/// The position of the factory's record: the first octet of block 1.
pub const RECORD: u32 = BLOCK;

/// How many blocks a key board has at least.
pub const KEY_BOARD_BLOCKS: u32 = 18;

/// The block of a module's flash that is its image block 0. Its flash has this many blocks, and
/// twice its capacity.
pub const FIRST_IMAGE_BLOCK: u32 = 84;
