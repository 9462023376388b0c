// Laws over images, for the layers above.
ghost use Rattle.std.specs.Prelude.{◌≡◌, ◌<◌, ℕ, List, length};
ghost use Rattle.edge_board.specs.Board.{Keeps};
ghost use Rattle.bank_gate.specs.States.{IsOpen};
ghost use Rattle.key_state.specs.KeyBlock.{row_of};
ghost use Rattle.lms_sign.specs.declared.key.SignKey.{SignKey};
ghost use Rattle.lms_sign.specs.PublicKeys.{leaf_count};
ghost use Rattle.bank_layout.specs.Layout.{factory, key_board_size, InKeyBoard};
ghost use Rattle.bank_layout.specs.Recovery.{Holder, HoldsKey, Recovers};
ghost use Rattle.bank_layout.specs.Recovery.Holder.{nobody};

/// A law: no image is without a holder. That it has one at most is a law of `bank_layout`.
pub fn no_image_is_without_a_holder()
    ensures some { (image : List ℕ) → ¬ ((holder : Holder) → ¬ Recovers image holder) }
{}

/// A law: nobody holds a board whose factory gate isn't open, or that has too few blocks.
pub fn nobody_holds_a_shut_or_small_board()
    ensures shut { (image : List ℕ) → ¬ IsOpen factory image → Recovers image nobody }
    ensures small { (image : List ℕ) → length image < key_board_size → Recovers image nobody }
{}

/// A law: images that are the same in blocks 0 to 17 are held by the same key, with the same row.
pub fn other_blocks_have_no_say()
    ensures key { (first second : List ℕ) (key : SignKey)
        → Keeps (λ i. ¬ InKeyBoard i) first second → HoldsKey first key → HoldsKey second key }
    ensures row { (first second : List ℕ) (key : SignKey)
        → Keeps (λ i. ¬ InKeyBoard i) first second → HoldsKey first key
        → row_of (leaf_count key) first ≡ row_of (leaf_count key) second }
{}
