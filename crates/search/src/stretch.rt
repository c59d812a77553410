// How far down its path a cell agrees with the completed list, and what of that is kept.
ghost use Rattle.std.specs.Prelude.{◌≡◌, ◌++◌, ◌<◌};
ghost use Rattle.rules.specs.Cells.{level_at};
ghost use Rattle.rules.specs.Table.{count, listing};
ghost use Rattle.search.specs.Good.{Told, reached, from_cell, above_cell};
ghost use Rattle.search.specs.Stretch.{levels, stretch, Carried};

use crate::Reached;
use crate::agree::{agrees, is_implied};
use cells::lookup::level_of;
use cells::runs::parent_of;
use terms::{CellNumber, TypeCode};

// From k, what is carried to a cell of level l, to the cell's own stretch. Where k does not reach its parent the cell need not be looked at.
pub fn stretched(
    cat: &[u8],
    tab: &[u8],
    size: usize,
    one: &[u8],
    two: &[u8],
    asked: &[u16; 33],
    t: TypeCode,
    k: u8,
    l: u8,
    c: CellNumber,
) -> u8
    requires { Told cat.now tab.now one.now two.now asked.now size t × (c.0 < count tab.now)
        × (l ≡ level_at cat.now (listing cat.now tab.now) c.0)
        × Carried cat.now (listing cat.now tab.now) (levels cat.now (one.now ++ two.now) t) c.0 k }
    ensures { result ≡ stretch cat.now (listing cat.now tab.now)
        (levels cat.now (one.now ++ two.now) t) c.0 }
{
    let above = l - 1;
    if k < above {
        return k;
    }
    if agrees(cat, tab, size, one, two, asked, t, c) {
        l
    } else {
        above
    }
}

// One level on the way up; l is that of cell c, and `below` what was gathered beneath it. Where the cell does not agree the stretch ends above it, and
// nothing beneath counts; else the lowest implied level is the one to keep, and it is met first.
fn one_up(
    cat: &[u8],
    tab: &[u8],
    size: usize,
    one: &[u8],
    two: &[u8],
    asked: &[u16; 33],
    t: TypeCode,
    below: Reached,
    l: u8,
    c: CellNumber,
) -> Reached
    requires { Told cat.now tab.now one.now two.now asked.now size t × (c.0 < count tab.now)
        × (l ≡ level_at cat.now (listing cat.now tab.now) c.0) }
    ensures { above_cell cat.now tab.now (one.now ++ two.now) t c.0 result
        ≡ from_cell cat.now tab.now (one.now ++ two.now) t c.0 below }
{
    if !agrees(cat, tab, size, one, two, asked, t, c) {
        return Reached {
            long: l - 1,
            kept: None,
        };
    }
    if below.kept.is_some() || !is_implied(cat, tab, size, one, two, asked, t, c) {
        return below;
    }
    Reached {
        kept: Some(c),
        ..below
    }
}

// The path from the root to a cell, by climbing: one loop, so that its stack does not grow with the levels.
pub fn path_to(
    cat: &[u8],
    tab: &[u8],
    size: usize,
    one: &[u8],
    two: &[u8],
    asked: &[u16; 33],
    t: TypeCode,
    c: CellNumber,
) -> Reached
    requires { Told cat.now tab.now one.now two.now asked.now size t × (c.0 < count tab.now) }
    ensures { result ≡ reached cat.now (listing cat.now tab.now)
        (levels cat.now (one.now ++ two.now) t) c.0 }
{
    let mut at = c;
    let mut l = level_of(cat, tab, size, c);
    let mut below = Reached {
        long: l,
        kept: None,
    };
    loop {
        below = one_up(cat, tab, size, one, two, asked, t, below, l, at);
        let Some(p) = parent_of(cat, tab, size, at) else {
            return below;
        };
        at = p;
        l -= 1;
    }
}
