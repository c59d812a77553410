// The run of a cell, and the cell that it lies beneath.
ghost use Rattle.std.specs.Prelude.{◌≡◌, true, ◌+◌, ◌-◌, ◌≤◌, ◌<◌};
ghost use Rattle.rules.specs.Catalogue.{types, good_catalogue};
ghost use Rattle.rules.specs.Cells.{end_at};
ghost use Rattle.rules.specs.Table.{count, listing};
ghost use Rattle.cells.specs.Lent.{Inside, end_from, LastBeneath, parent_at};
ghost use Rattle.cells.specs.Sound.{Sound};

use crate::lookup::{code_at, count, start_of};
use catalogue::entries::parent;
use catalogue::entry_bytes::types;
use terms::{CellNumber, TypeCode};

// The first cell from `from` on and before `to` whose code does not lie behind t and up to `last`; or `to`.
fn passed(tab: &[u8], size: usize, t: u8, last: u8, from: usize, to: usize) -> usize
    requires { Inside tab.now size to × (from ≤ to) }
    ensures { result ≡ end_from tab.now size t last from (to - from) }
{
    for i in from..to {
        let u = tab[start_of(tab, size, CellNumber(i))];
        if u <= t || last < u {
            return i;
        }
    }
    to
}

// The same of the `left` cells from i on, 512 of them at a call: a call for each cell would need a stack that grows with the table.
fn end_from(tab: &[u8], size: usize, t: u8, last: u8, i: usize, left: usize) -> usize
    requires { Inside tab.now size (i + left) }
    ensures { result ≡ end_from tab.now size t last i left }
{
    if left <= 512 {
        return passed(tab, size, t, last, i, i + left);
    }
    let next = i + 512;
    let end = passed(tab, size, t, last, i, next);
    if end < next {
        return end;
    }
    end_from(tab, size, t, last, next, left - 512)
}

// The last of the types beneath type t, which stand right behind it; t itself, if there is none.
fn last_beneath(cat: &[u8], t: u8) -> u8
    requires { (good_catalogue cat.now ≡ true) × (1 ≤ t) × (t ≤ types cat.now) }
    ensures { LastBeneath cat.now t result }
{
    let top = types(cat);
    for last in t..top {
        if parent(cat, TypeCode(last + 1)).0 < t {
            return last;
        }
    }
    top
}

// R17: where a run ends; in a good table, at the first later cell whose type is not beneath the cell's own.
pub fn run_end(cat: &[u8], tab: &[u8], size: usize, c: CellNumber) -> CellNumber
    requires { Sound cat.now tab.now size × (c.0 < count tab.now) }
    ensures { result.0 ≡ end_at cat.now (listing cat.now tab.now) c.0 }
{
    let i = c.0;
    let t = code_at(cat, tab, size, c).0;
    let last = last_beneath(cat, t);
    let next = i + 1;
    CellNumber(end_from(tab, size, t, last, next, count(tab) - next))
}

// The cell beneath which a cell lies: the nearest one before it whose type is the parent of its own. The cells between lie deeper, so that none
// of them has that type; a root has no parent, and nothing is sought. Never taken in by its callers: there the loop has no register left for the size of a
// cell, and a climb past 4,096 cells takes 1.4 times as long.
#[inline(never)]
pub fn parent_of(cat: &[u8], tab: &[u8], size: usize, c: CellNumber) -> Option<CellNumber>
    requires { Sound cat.now tab.now size × (c.0 < count tab.now) }
    ensures { result ≡ parent_at cat.now (listing cat.now tab.now) c.0 }
{
    let above = parent(cat, code_at(cat, tab, size, c));
    if above.0 == 0 {
        return None;
    }
    // Counted down by hand: over `(0..c.0).rev()` a step of GN that climbs to the first of 4,096 cells takes twice as long.
    let mut k = c.0;
    while 0 < k {
        k -= 1;
        if code_at(cat, tab, size, CellNumber(k)).0 == above.0 {
            return Some(CellNumber(k));
        }
    }
    None
}
