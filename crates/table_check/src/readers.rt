// The listing of the cells: the twin-group reader and the segment reader call each other, and each call has fewer cells left to read.
// A call stands for a level, and stack is what a controller has least of: so both hand on the cells, a row of what the catalogue says of its types, a
// type, and how many cells are left, and nothing else. Each answers how many cells are left behind what it has read.
ghost use Rattle.std.specs.Prelude.{◌≡◌, true, ◌≤◌, ◌<◌, replicate};
ghost use Rattle.rules.specs.Packed.{is_number};
ghost use Rattle.rules.specs.Order.{order};
ghost use Rattle.rules.specs.Catalogue.{types, good_catalogue};
ghost use Rattle.rules.specs.Cells.{good_listing};
ghost use Rattle.rules.specs.Table.{listing};
ghost use Rattle.cells.specs.Lent.{Sized};
ghost use Rattle.table_check.specs.Keys.{Valued, packed_follows};
ghost use Rattle.table_check.specs.Readers.{fact, start_before, code_before, key_before, Filled, Fits, Headed, Follows, TwinIs, GroupLeaves, SegmentLeaves};

use blocks::slices::order_of;
use blocks::wide;
use catalogue::entry_bytes::types;
use cells::lookup::{code_at, count, start_of};
use std::cmp::Ordering;
use terms::{CellNumber, Operator};
use values::holds_at;

// A type's code as the row of facts is asked by it: a byte would be kept twice in each frame, narrow and wide.
#[derive(Clone, Copy)]
struct TypeIndex(usize);

// The row: 4 bytes a type, its parent and its key's kind, start and length, a packed key's kind with 4 added; the first byte of all is the cell size. A
// code that no type has is nobody's child there: 0 stands for its parent, and no segment has type 0.
fn fill(cat: &[u8], size: usize, facts: &mut [u8; 132])
    requires { (good_catalogue cat.now ≡ true) × (size ≤ 121) × (facts.old ≡ replicate 132 0) }
    ensures { Filled cat.now size (types cat.now) facts.new }
{
    facts[0] = size as u8;
    for v in 1..=wide(types(cat)) {
        facts[4 * v] = cat[8 * v];
        facts[4 * v + 1] = cat[8 * v + 2] + 4 * cat[8 * v + 7];
        facts[4 * v + 2] = cat[8 * v + 3];
        facts[4 * v + 3] = cat[8 * v + 4];
    }
}

// Byte k of what the row tells of a type.
fn fact(facts: &[u8; 132], t: TypeIndex, k: usize) -> usize
    requires { (t.0 ≤ 32) × (k < 4) }
    ensures { (result ≡ fact facts.now t.0 k) × (result < 256) }
{
    wide(facts[4 * t.0 + k])
}

// Where the cell begins from which on `left` cells are left: the slice ends with the last cell.
fn start_before(cells: &[u8], facts: &[u8; 132], left: usize) -> usize
    requires { Fits cells.now facts.now left }
    ensures { result ≡ start_before cells.now facts.now left }
{
    cells.len() - left * wide(facts[0])
}

// The type of that cell.
fn code_before(cells: &[u8], facts: &[u8; 132], left: usize) -> TypeIndex
    requires { Fits cells.now facts.now left × (1 ≤ left) }
    ensures { result.0 ≡ code_before cells.now facts.now left }
{
    let at = start_before(cells, facts, left);
    TypeIndex(wide(cells[at]))
}

// How the key of a cell of type t, at which `last` were left, stands to that of a later one, at which `left` are left.
fn key_order(cells: &[u8], facts: &[u8; 132], t: TypeIndex, last: usize, left: usize) -> Ordering
    requires { Follows cells.now facts.now t.0 last left }
    ensures { result ≡ order (key_before cells.now facts.now t.0 last)
        (key_before cells.now facts.now t.0 left) }
{
    let from = fact(facts, t, 2);
    let long = fact(facts, t, 3);
    let a = start_before(cells, facts, last) + from;
    let b = start_before(cells, facts, left) + from;
    let x = a + long;
    let y = b + long;
    order_of(&cells[a..x], &cells[b..y])
}

// Whether the packed key of a cell of type t, at which `last` were left, lets that of a later one follow, at which `left` are left: a unique one has to be
// greater, another must not be smaller. One operator serves both: two would cost every level a register.
fn packed_twin(cells: &[u8], facts: &[u8; 132], t: TypeIndex, last: usize, left: usize) -> bool
    requires { Follows cells.now facts.now t.0 last left }
    ensures { is_number (key_before cells.now facts.now t.0 last) ≡ true
        → is_number (key_before cells.now facts.now t.0 left) ≡ true
        → result ≡ packed_follows (fact facts.now t.0 1) (key_before cells.now facts.now t.0 last)
        (key_before cells.now facts.now t.0 left) }
{
    let from = fact(facts, t, 2);
    let long = fact(facts, t, 3);
    let a = start_before(cells, facts, last) + from;
    let b = start_before(cells, facts, left) + from;
    if fact(facts, t, 1) == 5 {
        holds_at(Operator::Lt, cells, a, cells, b, long)
    } else {
        !holds_at(Operator::Lt, cells, b, cells, a, long)
    }
}

// Whether the next cell is the next twin of type t behind the twin at which `last` were left. A type without a key is one whose key has no byte.
fn twin(cells: &[u8], facts: &[u8; 132], t: TypeIndex, last: usize, left: usize) -> bool
    requires { Follows cells.now facts.now t.0 last left }
    ensures { TwinIs cells.now facts.now t.0 last left result }
{
    if code_before(cells, facts, left).0 != t.0 {
        return false;
    }
    if fact(facts, t, 3) == 0 {
        return true;
    }
    let kind = fact(facts, t, 1);
    if 2 < kind {
        return packed_twin(cells, facts, t, last, left);
    }
    match key_order(cells, facts, t, last, left) {
        Ordering::Less => true,
        Ordering::Equal => kind != 1,
        Ordering::Greater => false,
    }
}

// The twins of one group (R14): the next cell is the first twin of type v. The twins are read in a loop, so that a call stands
// only for a level. Neither this loop nor the one of `segment` counts an index: what was read tells where to read on.
#[cycle(group_segment)]
fn group(cells: &[u8], facts: &[u8; 132], v: TypeIndex, left: usize) -> usize
    requires { Headed cells.now facts.now v.0 left }
    ensures { (result < left) × GroupLeaves cells.now facts.now v.0 left result }
{
    let mut rest = left;
    loop {
        let last = rest;
        rest = segment(cells, facts, v, last - 1);
        if rest == 0 {
            return rest;
        }
        if !twin(cells, facts, v, last, rest) {
            return rest;
        }
    }
}

// The groups of a segment of type p, whose cell is read (R14). The next cell tells which group comes next, so that no type is asked for whose group
// is empty.
#[cycle(group_segment)]
fn segment(cells: &[u8], facts: &[u8; 132], p: TypeIndex, left: usize) -> usize
    requires { Fits cells.now facts.now left × (1 ≤ p.0) }
    ensures { (result ≤ left) × SegmentLeaves cells.now facts.now p.0 left result }
{
    let mut c = p.0;
    let mut rest = left;
    while 0 < rest {
        let u = code_before(cells, facts, rest);
        if u.0 <= c {
            return rest;
        }
        if 32 < u.0 {
            return rest;
        }
        if fact(facts, u, 0) != p.0 {
            return rest;
        }
        c = u.0;
        rest = group(cells, facts, u, rest);
    }
    rest
}

// R14: the n cells are one group of type 1 with all beneath it, and nothing is left over.
pub(crate) fn is_listing(cat: &[u8], tab: &[u8], size: usize) -> bool
    requires { (good_catalogue cat.now ≡ true) × Sized cat.now tab.now size × Valued cat.now tab.now }
    ensures { result ≡ good_listing cat.now (listing cat.now tab.now) }
{
    let n = count(tab);
    if n == 0 {
        return true;
    }
    if code_at(cat, tab, size, CellNumber(0)).0 != 1 {
        return false;
    }
    let mut facts = [0u8; 132];
    fill(cat, size, &mut facts);
    let end = start_of(tab, size, CellNumber(n));
    group(&tab[..end], &facts, TypeIndex(1), n) == 0
}
