// Laws over the store of a flash, for the layers that stream and install one after the other.
ghost use Rattle.std.specs.Prelude.{◌≡◌, ◌+◌, ◌≤◌, ◌<◌, ◌^◌, ℕ, Bool, List, None, Some, length};
ghost use Rattle.edge_board.specs.Board.{IsSettled, Nowhere};
ghost use Rattle.edge_board.specs.Runs.{Touches};
ghost use Rattle.package_attrs.specs.Image.{blocks_for};
ghost use Rattle.content_stream.specs.Plans.{InStream, IsPlanned, Plan, TakesBlocks};
ghost use Rattle.package_attrs.specs.Description.{Description};
ghost use Rattle.package_attrs.specs.Identifier.{IsIdentifier};
ghost use Rattle.package_attrs.specs.Information.{IsInfo};
ghost use Rattle.config_table.specs.State.{Offer, offer_of};
ghost use Rattle.config_table.specs.Stored.{lengths};
ghost use Rattle.bank_layout.specs.Changes.{IsUnnamed};
ghost use Rattle.bank_layout.specs.Layout.{first_image_block};
ghost use Rattle.bank_layout.specs.Manifest.{IsKept};
ghost use Rattle.module_store.specs.declared.store.Store.{Store};
ghost use Rattle.module_store.specs.Moments.{Stays};
ghost use Rattle.module_store.specs.Room.{HasRoomFor, IsOffer};
ghost use Rattle.module_store.specs.Store.{CanPrepare, IsQuiet, IsStore, IsStoreOf};

use bank_layout::{installed_states_are_kept, unnamed_blocks_have_no_say};
use block_pool::{free_blocks_are_apart, half_of_the_blocks_are_free, taken_blocks_are_live_too};
use content_stream::blocks_were_free;
use edge_board::Board;

/// A law: what writes no more than the blocks of a stream over the store's pool, or nothing at all,
/// has no say in what the flash recovers to, at each moment of it.
pub fn streams_have_no_say<B: Board>()
    ensures stream { B.tells_cells → (s : Store) (old new : B) (size : ℕ) (front : List ℕ)
        (after : List Bool) (plan : Plan) → IsStore s → IsStoreOf s (B.view old).cells
        → IsSettled (B.view old) → IsPlanned first_image_block size front s.pool after plan
        → Touches B.tells_cells (InStream plan) (B.view old) (B.view new)
        → Stays s (B.view old) (B.view new) }
    ensures nothing { B.tells_cells → (s : Store) (old new : B) → IsStoreOf s (B.view old).cells
        → IsSettled (B.view old) → Touches B.tells_cells Nowhere (B.view old) (B.view new)
        → Stays s (B.view old) (B.view new) }
    ensures unnamed { (s : Store) (size : ℕ) (front : List ℕ) (after : List Bool) (plan : Plan)
        → IsStore s → IsPlanned first_image_block size front s.pool after plan
        → (i : ℕ) → InStream plan i → IsUnnamed s.state i }
{
    unnamed_blocks_have_no_say();
    blocks_were_free();
}

/// A law: an accepted package whose image the module has room for finds its blocks in the pool
/// (`blocks`), and with them it can be prepared (`ready`).
pub fn packages_with_room_can_be_prepared()
    ensures offer { (described : Description) → IsIdentifier described.identifier
        → IsInfo described.info → IsOffer (offer_of described) }
    ensures kept { (s : Store) → IsStore s → IsKept s.module.capacity s.state }
    ensures blocks { (s : Store) (offer : Offer) (digest : List ℕ) (size : ℕ) (pool : List Bool)
        → IsStore s → IsQuiet s → HasRoomFor s.module.capacity offer digest size (lengths s.state)
        → ¬ TakesBlocks (blocks_for size) s.pool pool None }
    ensures ready { (s : Store) (offer : Offer) (digest : List ℕ) (size : ℕ) (pool : List Bool)
        (numbers : List ℕ) → IsStore s → IsQuiet s → IsOffer offer → length digest ≡ 32
        → HasRoomFor s.module.capacity offer digest size (lengths s.state)
        → s.sequence + 1 < 2 ^ 64 → TakesBlocks (blocks_for size) s.pool pool (Some numbers)
        → CanPrepare (record s { pool = pool }) offer digest
        (record { length = size; blocks = numbers }) }
{
    installed_states_are_kept();
    free_blocks_are_apart();
    half_of_the_blocks_are_free();
    taken_blocks_are_live_too();
}
