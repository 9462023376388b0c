// Laws over images and manifests, which no call computes.
ghost use Rattle.std.specs.Prelude.{◌≡◌, ◌⊎◌, ◌+◌, ◌*◌, ◌≤◌, sum_by, length, replicate, Contains, ℕ, List, Option, Some};
ghost use Rattle.std.specs.List.{AllByRecursion};
ghost use Rattle.sha2.specs.Sha256.{sha256};
ghost use Rattle.der_core.specs.Element.{HasRoom};
ghost use Rattle.edge_board.specs.Board.{AllRead, InBlock, IsSettled, Keeps};
ghost use Rattle.edge_board.specs.Runs.{LeavesOnly, Touches};
ghost use Rattle.bank_gate.specs.Places.{IsPlace};
ghost use Rattle.bank_gate.specs.States.{IsOpen, IsOpened, Stands};
ghost use Rattle.block_pool.specs.Numbers.{IsApart};
ghost use Rattle.package_attrs.specs.Image.{blocks_for};
ghost use Rattle.key_state.specs.KeyBlock.{FirstUnspent, IsLeafCount, row_start};
ghost use Rattle.lms_sign.specs.PublicKeys.{leaf_count};
ghost use Rattle.module_record.specs.ModuleRecord.{IsModule, module_text};
ghost use Rattle.module_record.specs.declared.module.Module.{Module};
ghost use Rattle.config_table.specs.State.{Entry, Offer, State, entry_for, placed, state_with, with_package, after_package, empty_state};
ghost use Rattle.config_table.specs.Stored.{Stored};
ghost use Rattle.bank_layout.specs.declared.bank.Bank.{Bank};
ghost use Rattle.bank_layout.specs.declared.format.Format.{Format};
ghost use Rattle.bank_layout.specs.declared.format.Format.TheVariants.{Two};
ghost use Rattle.bank_layout.specs.Layout.{InBank, board_size, factory, gate_block, manifest_octets, manifest_start, place_of};
ghost use Rattle.bank_layout.specs.Manifest.{BeginsWithManifest, IsEntry, IsKept, IsManifest, Manifest, blocks_in, manifest_contents, manifest_text, named_blocks};
ghost use Rattle.bank_layout.specs.Recovery.{Holder, HoldsModule, IsOver, Recovers, Standing, image_octets, standing_of};
ghost use Rattle.bank_layout.specs.Recovery.Holder.{module_board};
ghost use Rattle.bank_layout.specs.Changes.{Installs, IsNew, IsUnnamed, IsUnnamedIn, LooksAs, LooksAsButRow, OldOrNew, spare};

use edge_board::Board;
use key_state::first_unspent_is_in_the_row;
use module_record::{one_key_record_each, one_module_record_each, records_tell_their_kind};

// ---- one reading of an image

/// A law: octets begin with one valid manifest at most, of either format.
pub fn one_manifest_each()
    ensures one { (capacity : ℕ) (octets : List ℕ) (m n : Manifest) → length octets ≤ 131072
        → BeginsWithManifest capacity octets m → BeginsWithManifest capacity octets n → m ≡ n }
{}

/// A law: an image has one holder at most; and one module, running bank and manifest.
pub fn each_image_has_one_holder()
    ensures one { (image : List ℕ) (first second : Holder) → Recovers image first
        → Recovers image second → first ≡ second }
    ensures store { (image : List ℕ) (m n : Module) (first second : Option Bank) (x y : Manifest)
        → HoldsModule image m first x → HoldsModule image n second y
        → (m ≡ n) × (first ≡ second) × (x ≡ y) }
{
    one_key_record_each();
    one_module_record_each();
    records_tell_their_kind();
}

/// A law: the images of a module that an image recovers to have the lengths that the manifest in
/// force gives them.
pub fn images_have_their_lengths()
    ensures lengths { (image : List ℕ) (m : Module) (running : Option Bank) (manifest : Manifest)
        → HoldsModule image m running manifest
        → state_with (λ (octets : List ℕ). length octets) (standing_of m manifest image).state
        ≡ state_with (λ (stored : Stored). stored.length) manifest.state }
{}

/// A law: under a module each open gate is over a manifest, and what runs has the greatest sequence
/// of them.
pub fn greatest_sequence_runs()
    ensures over { (image : List ℕ) (m : Module) (running : Option Bank) (manifest : Manifest)
        → HoldsModule image m running manifest → (bank : Bank) → IsOpen (place_of bank) image
        → (n : Manifest) × IsOver m.capacity image bank n }
    ensures greatest { (image : List ℕ) (m : Module) (running : Option Bank) (manifest : Manifest)
        → HoldsModule image m running manifest → (bank : Bank) (n : Manifest)
        → IsOver m.capacity image bank n → n.sequence ≤ manifest.sequence }
{}

// ---- changes that have no say

/// A law: image blocks that no running manifest names have no say. Where no bank runs, those are
/// all image blocks.
pub fn unnamed_blocks_have_no_say()
    ensures holder { (a b : List ℕ) (m : Module) (standing : Standing)
        → Recovers a (module_board m standing) → Keeps (IsUnnamedIn m.capacity a) a b
        → Recovers b (module_board m standing) }
    ensures store { (a b : List ℕ) (m : Module) (running : Option Bank) (manifest : Manifest)
        → HoldsModule a m running manifest → Keeps (IsUnnamed manifest.state) a b
        → LooksAs a b m running manifest }
    ensures unnamed { (image : List ℕ) (m : Module) (running : Option Bank) (manifest : Manifest)
        (i : ℕ) → HoldsModule image m running manifest → IsUnnamed manifest.state i
        → IsUnnamedIn m.capacity image i }
{}

/// A law: what changes in the row's block alone changes the row alone.
pub fn rows_stand_apart()
    ensures row { (a b : List ℕ) (m : Module) (running : Option Bank) (manifest : Manifest)
        → HoldsModule a m running manifest → Keeps (InBlock 17) a b
        → LooksAsButRow a b m running manifest }
{}

/// A law: a spend changes the row alone, at each moment of it.
pub fn spends_change_the_row_alone<B: Board>()
    ensures now { B.tells_cells → (old new : B) (leaves : ℕ) (m : Module) (running : Option Bank)
        (manifest : Manifest) → IsLeafCount leaves → HoldsModule (B.view old).cells m running manifest
        → Touches B.tells_cells (FirstUnspent leaves (B.view old).cells) (B.view old) (B.view new)
        → LooksAsButRow (B.view old).cells (B.view new).cells m running manifest }
    ensures moments { B.tells_cells → (old new : B) (leaves : ℕ) (m : Module)
        (running : Option Bank) (manifest : Manifest) → IsLeafCount leaves
        → HoldsModule (B.view old).cells m running manifest → IsSettled (B.view old)
        → Touches B.tells_cells (FirstUnspent leaves (B.view old).cells) (B.view old) (B.view new)
        → LeavesOnly (B.view old) (B.view new)
        (λ image s. LooksAsButRow (B.view old).cells image m running manifest
        × (B.view old).sent s) }
{
    first_unspent_is_in_the_row();
}

/// A law: while the spare's gate is closed, and while it isn't open, what changes in the spare has
/// no say.
pub fn changes_behind_a_shut_gate()
    ensures closing { (a b : List ℕ) (m : Module) (running : Option Bank) (manifest : Manifest)
        → HoldsModule a m running manifest
        → Keeps (InBlock (gate_block (spare running))) a b
        → (IsOpen (place_of (spare running)) b → IsOpen (place_of (spare running)) a)
        → LooksAs a b m running manifest }
    ensures shut { (a b : List ℕ) (m : Module) (running : Option Bank) (manifest : Manifest)
        → HoldsModule a m running manifest → Keeps (InBank (spare running)) a b
        → ¬ IsOpen (place_of (spare running)) b → LooksAs a b m running manifest }
{}

// ---- an install

/// A law: once the spare's gate is open over a manifest of the next sequence, that one runs; and
/// where its state is the old one with a package, so is what stands there.
pub fn next_manifest_runs()
    ensures runs { (a b : List ℕ) (m : Module) (running : Option Bank) (manifest next : Manifest)
        → HoldsModule a m running manifest → Keeps (InBank (spare running)) a b
        → IsOver m.capacity b (spare running) next → next.sequence ≡ manifest.sequence + 1
        → HoldsModule b m (Some (spare running)) next
        × (standing_of m next b ≡ standing_of m next a) }
    ensures made { (a : List ℕ) (m : Module) (manifest next : Manifest) (offer : Offer)
        (stored : Stored) → next ≡ record {
          sequence = manifest.sequence + 1;
          state = with_package offer (sha256 (image_octets a stored)) stored manifest.state;
        } → standing_of m next a ≡ record {
          sequence = (standing_of m manifest a).sequence + 1;
          state = after_package offer (image_octets a stored) (standing_of m manifest a).state;
          row = (standing_of m manifest a).row;
        } }
{}

/// A law: while the spare is written, what was there or the next is found, if its gate is open only
/// over what it was open over, and over the next manifest.
pub fn writing_leaves_old_or_new()
    ensures moment { (a b : List ℕ) (m : Module) (running : Option Bank) (manifest next : Manifest)
        → HoldsModule a m running manifest → Keeps (InBank (spare running)) a b
        → (IsOpen (place_of (spare running)) b → (IsOpen (place_of (spare running)) a
        × (manifest_octets (spare running) b ≡ manifest_octets (spare running) a))
        ⊎ BeginsWithManifest m.capacity (manifest_octets (spare running) b) next)
        → next.sequence ≡ manifest.sequence + 1 → OldOrNew a b m manifest next }
{}

/// A law: a power cut in an install leaves what was there or the next: what was there, as long as the
/// next manifest isn't sealed, and the next once the gate is open.
pub fn an_install_leaves_old_or_new<B: Board>()
    ensures begun { B.tells_cells → (old new : B) (m : Module) (running : Option Bank)
        (manifest : Manifest) → HoldsModule (B.view old).cells m running manifest
        → IsSettled (B.view old)
        → Touches B.tells_cells (InBank (spare running)) (B.view old) (B.view new)
        → LeavesOnly (B.view old) (B.view new)
        (λ image s. IsOpen (place_of (spare running)) image → image ≡ (B.view old).cells)
        → LeavesOnly (B.view old) (B.view new) (λ image s.
        Recovers image (module_board m (standing_of m manifest (B.view old).cells))
        × (B.view old).sent s) }
    ensures moments { B.tells_cells → (old mid new : B) (m : Module) (running : Option Bank)
        (manifest next : Manifest)
        → Installs B.tells_cells m running manifest next (B.view old) (B.view mid) (B.view new)
        → LeavesOnly (B.view old) (B.view new)
        (λ image s. OldOrNew (B.view old).cells image m manifest next × (B.view old).sent s) }
    ensures installed { B.tells_cells → (old mid new : B) (m : Module) (running : Option Bank)
        (manifest next : Manifest)
        → Installs B.tells_cells m running manifest next (B.view old) (B.view mid) (B.view new)
        → IsOpened (place_of (spare running)) (B.view new)
        → HoldsModule (B.view new).cells m (Some (spare running)) next
        × (standing_of m next (B.view new).cells ≡ standing_of m next (B.view old).cells) }
{}

// ---- what may stand in a bank

/// A law: the manifest of a module fits the blocks of a bank, an element has room for it, and where
/// its text of format 2 stands in them they begin with it.
pub fn manifests_fit()
    ensures size { (format : Format) (capacity : ℕ) (m : Manifest) → IsManifest capacity m
        → length (manifest_text format m) ≤ 131072 }
    ensures room { (format : Format) (capacity : ℕ) (m : Manifest) → IsManifest capacity m
        → HasRoom (manifest_contents format m) }
    ensures stands { (bank : Bank) (capacity : ℕ) (m : Manifest) (image : List ℕ)
        → 344064 ≤ length image → IsManifest capacity m
        → Stands (manifest_start bank) (manifest_text Two m) image
        → BeginsWithManifest capacity (manifest_octets bank image) m }
{}

/// A law: where a package with blocks of its own is installed, no block comes to stand twice.
pub fn blocks_stay_apart()
    ensures apart { (new : Entry Stored) (packages : List (Entry Stored))
        → IsApart new.image.blocks → IsApart (blocks_in packages)
        → ((n : ℕ) → Contains new.image.blocks n → ¬ Contains (blocks_in packages) n)
        → IsApart (blocks_in (placed new packages)) }
{}

/// A law: what an install makes of a state that can be kept can be kept. As many blocks are named
/// as the images' lengths ask for, also where it isn't known yet that they fit. Both banks are places.
pub fn installed_states_are_kept()
    ensures kept { (capacity : ℕ) (offer : Offer) (digest : List ℕ) (stored : Stored)
        (state : State Stored) → IsKept capacity state
        → IsNew capacity offer digest stored state
        → IsKept capacity (with_package offer digest stored state) }
    ensures counted { (packages : List (Entry Stored)) → AllByRecursion IsEntry packages
        → length (blocks_in packages)
        ≡ sum_by (λ entry. blocks_for entry.image.length) packages }
    ensures asked { (capacity : ℕ) (offer : Offer) (digest : List ℕ) (stored : Stored)
        (state : State Stored) → IsKept capacity state → IsEntry (entry_for offer digest stored)
        → length (named_blocks (with_package offer digest stored state))
        ≡ sum_by (λ entry. blocks_for entry.image.length)
        (with_package offer digest stored state).packages }
    ensures places { (bank : Bank) → IsPlace (place_of bank) }
{}

/// A law: where the factory gate is open over the record of a module, both gates are shut and the
/// row is FF, nothing is installed and no leaf is spent.
pub fn a_fresh_module_is_empty()
    ensures empty { (image : List ℕ) (m : Module) → IsModule m → length (module_text m) ≤ 65536
        → board_size m.capacity ≤ length image → IsOpen factory image
        → Stands 4096 (module_text m) image → AllRead row_start 4096 255 image
        → ((bank : Bank) → ¬ IsOpen (place_of bank) image)
        → Recovers image (module_board m (record {
          sequence = 0;
          state = empty_state;
          row = replicate (leaf_count m.key) 255;
        })) }
{}
