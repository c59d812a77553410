// The position in its block of 8 bytes.
ghost use Rattle.std.specs.Prelude.{◌≡◌, true};
ghost use Rattle.terms.specs.Choice.{pick};
ghost use Rattle.terms.specs.Moves.{after_place, is_on};
ghost use Rattle.rules.specs.Position.{good_block, position_of, position_bytes};
ghost use Rattle.position.specs.Block.{block_place, block_parentage, place_kind, parentage_kind, parentage_number, Writable};

use blocks::{byte_at, wide, word_at};
use terms::{CellNumber, Parentage, Place, Position};

#[tactic(auto, unfolding(rules::specs::Position::good_block))]
fn good_block(block: &[u8]) -> bool
    ensures { result ≡ good_block block.now }
{
    block.len() == 8
        && byte_at(block, 0) <= 1
        && byte_at(block, 3) <= 1
        && byte_at(block, 6) <= 1
        && byte_at(block, 7) == 0
        && (byte_at(block, 3) == 1 || word_at(block, 4) == 0)
}

fn place_of(block: &[u8]) -> Place
    ensures { result ≡ block_place block.now }
{
    let c = CellNumber(word_at(block, 1));
    if byte_at(block, 0) == 1 {
        Place::On(c)
    } else {
        Place::Before(c)
    }
}

fn parentage_of(block: &[u8]) -> Parentage
    ensures { result ≡ block_parentage block.now }
{
    if byte_at(block, 3) == 1 {
        Some(CellNumber(word_at(block, 4)))
    } else {
        None
    }
}

// A block that is none is a bad position: a hold in a gap, which no table has.
#[tactic(auto, unfolding(rules::specs::Position::position_of))]
pub fn position_of(block: &[u8]) -> Position
    ensures { result ≡ position_of block.now }
{
    if !good_block(block) {
        return Position {
            place: Place::Before(CellNumber(0)),
            parentage: None,
            hold: true,
        };
    }
    Position {
        place: place_of(block),
        parentage: parentage_of(block),
        hold: byte_at(block, 6) == 1,
    }
}

// Whether a good block has its place on a cell.
pub fn is_on(block: &[u8]) -> bool
    requires { good_block block.now ≡ true }
    ensures { result ≡ is_on (position_of block.now).place }
{
    block[0] == 1
}

// The first cell after the place of a good block. The kind, which is 1 on a cell, goes to the low byte first: a compiler that makes one load of both
// bytes of the number has it wait for the two stores that the step before made of them.
pub fn cell_after(block: &[u8]) -> usize
    requires { good_block block.now ≡ true }
    ensures { result ≡ after_place (position_of block.now).place }
{
    let low = wide(block[2]) + wide(block[0]);
    256 * wide(block[1]) + low
}

// The byte that stands for the kind in the block.
fn place_kind(place: Place) -> u8
    ensures { result ≡ place_kind place }
{
    match place {
        Place::On(_) => 1,
        Place::Before(_) => 0,
    }
}

// Hot, and so byte by byte: `copy_from_slice` of an array would take a frame (blocks::moves).
pub fn put_position(block: &mut [u8], p: Position)
    requires { Writable block.old p }
    ensures { block.new ≡ position_bytes p }
{
    let i = p.cell().0;
    let j = p.parentage.map_or(0, |c| c.0);
    block[0] = place_kind(p.place);
    block[1] = (i / 256) as u8;
    block[2] = (i % 256) as u8;
    block[3] = u8::from(p.parentage.is_some());
    block[4] = (j / 256) as u8;
    block[5] = (j % 256) as u8;
    block[6] = u8::from(p.hold);
    block[7] = 0;
}
