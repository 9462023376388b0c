// The items of a stream that comes in pieces.
ghost use Rattle.std.specs.Prelude.{◌≡◌, ◌++◌, List, ℕ, map, IfOk, OnOk};
ghost use Rattle.std.specs.List.{flat_map};
ghost use Rattle.der_core.specs.Items.{IsItems};
ghost use Rattle.der_core.specs.Splitter.{Stands};

use crate::splitter::{Splitter, Step, split_step};
use std::alloc::{AllocError, Global};
use std::mem;

/// The items of the stream that comes in these pieces. They are those of the octets one after the
/// other, so it doesn't matter how the stream is cut.
pub fn split_pieces(alloc: Global, pieces: &[&[u8]]) -> Result<Vec<Vec<u8>>, AllocError>
    ensures items { IfOk result (λ parts. IsItems (flat_map (λ piece. piece.now) pieces.now)
        (map (λ item. item.items) parts.items)) }
{
    let mut splitter = Splitter::new();
    let mut ended = Vec::new(alloc);
    let mut item = Vec::new(alloc);
    for piece in pieces {
        take_piece(alloc, &mut splitter, &mut ended, &mut item, piece)?;
    }
    if !item.is_empty() {
        ended.push(item)?;
    }
    Ok(ended)
}

// Takes all of a piece: the items that end in it, and what it has of the next one.
fn take_piece(
    alloc: Global,
    splitter: &mut Splitter,
    ended: &mut Vec<Vec<u8>>,
    item: &mut Vec<u8>,
    piece: &[u8],
) -> Result<(), AllocError>
    ensures { OnOk result ((stream : List ℕ)
        → Stands splitter.old stream (map (λ item. item.items) ended.old.items) item.old.items
        → Stands splitter.new (stream ++ piece.now)
        (map (λ item. item.items) ended.new.items) item.new.items) }
{
    let mut rest = piece;
    while !rest.is_empty() {
        let Step::Ends(size) = split_step(splitter, rest) else {
            item.extend_from_slice(rest)?;
            return Ok(());
        };
        let (front, others) = rest.split_at(size);
        item.extend_from_slice(front)?;
        ended.push(mem::replace(item, Vec::new(alloc)))?;
        rest = others;
    }
    Ok(())
}
