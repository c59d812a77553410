// The pass forward, over the cells from a first one to before a last (R34).
ghost use Rattle.std.specs.Prelude.{◌≡◌, true, ◌++◌, ◌≤◌, ◌<◌, unwrap_or};
ghost use Rattle.rules.specs.Catalogue.{level};
ghost use Rattle.rules.specs.Matching.{first_match};
ghost use Rattle.rules.specs.Table.{count, listing};
ghost use Rattle.cells.specs.Lent.{Sized};
ghost use Rattle.search.specs.Good.{Good, Asking, Told, NextRoot, Upcoming, Continued, begins_above};
ghost use Rattle.search.specs.Stretch.{levels, stretch_before};

use crate::alone::forward_alone;
use crate::stretch::{path_to, stretched};
use arguments::alone::alone;
use arguments::asked::ask;
use catalogue::lineage::{level_by, levels};
use cells::lookup::{code_at, level_at};
use terms::{CellNumber, TypeCode};

// The first cell of the root's type from `from` on and before `to`; or `to`.
fn next_root(cat: &[u8], tab: &[u8], size: usize, from: usize, to: usize) -> usize
    requires { Sized cat.now tab.now size × (from ≤ to) × (to ≤ count tab.now) }
    ensures { NextRoot (listing cat.now tab.now) from to result }
{
    for i in from..to {
        if code_at(cat, tab, size, CellNumber(i)).0 == 1 {
            return i;
        }
    }
    to
}

// The next cell to look at. Where nothing is carried that is a root: all cells before the next root lie beneath one that does not agree.
fn upcoming(
    cat: &[u8],
    tab: &[u8],
    size: usize,
    one: &[u8],
    two: &[u8],
    t: TypeCode,
    k: u8,
    from: usize,
    to: usize,
) -> usize
    requires { Good cat.now tab.now (one.now ++ two.now) size t × (0 < t.0) × (to ≤ count tab.now)
        × (k ≡ stretch_before cat.now (listing cat.now tab.now) (levels cat.now (one.now ++ two.now) t) from) × (from ≤ to) }
    ensures { Upcoming cat.now tab.now (one.now ++ two.now) t k from to result }
{
    if k != 0 {
        return from;
    }
    next_root(cat, tab, size, from, to)
}

// The first match from cell `from` on and before cell `to`; k is the stretch of the cell before. None: the lists match that cell, so that it agrees
// down to their last level.
pub(crate) fn forward(
    cat: &[u8],
    tab: &[u8],
    size: usize,
    one: &[u8],
    two: &[u8],
    asked: &[u16; 33],
    t: TypeCode,
    k: Option<u8>,
    from: usize,
    to: usize,
) -> Option<CellNumber>
    requires { Told cat.now tab.now one.now two.now asked.now size t × (0 < t.0) × (to ≤ count tab.now)
        × (unwrap_or k (level cat.now t) ≡ stretch_before cat.now (listing cat.now tab.now) (levels cat.now (one.now ++ two.now) t) from) }
    ensures { result ≡ first_match cat.now (listing cat.now tab.now)
        (levels cat.now (one.now ++ two.now) t) from to }
{
    let mut row = [0u8; 33];
    levels(cat, &mut row);
    let last = level_by(&row, cat, t);
    let mut long = k.unwrap_or(last);
    let mut i = from;
    // A `while`, since the pass goes from a root to the next one where nothing is carried.
    while i < to {
        i = upcoming(cat, tab, size, one, two, t, long, i, to);
        if to <= i {
            return None;
        }
        let c = CellNumber(i);
        let l = level_at(&row, cat, tab, size, c);
        long = stretched(cat, tab, size, one, two, asked, t, long, l, c);
        if l == last && long == last {
            return Some(c);
        }
        i += 1;
    }
    None
}

// Whether the first argument of a list tests another type than t. Then the lists do not test t alone, and the walk that would tell is spared.
#[tactic(auto, unfolding(crate::specs::Good::begins_above))]
fn begins_above(list: &[u8], t: TypeCode) -> bool
    ensures { result ≡ begins_above list.now t }
{
    list.len() >= 2 && list[1] != 0 && list[0] != t.0
}

// The same from any cell. Where the lists test a type above their last it climbs once, for the cell before; `again` tells that they match that cell.
// An empty list is matched by the first cell (R29).
pub fn first_match(
    cat: &[u8],
    tab: &[u8],
    size: usize,
    one: &[u8],
    two: &[u8],
    t: TypeCode,
    again: bool,
    from: usize,
    to: usize,
) -> Option<CellNumber>
    requires { Asking cat.now tab.now one.now two.now size t × (to ≤ count tab.now)
        × (again ≡ true → Continued cat.now tab.now (one.now ++ two.now) t from) }
    ensures { result ≡ first_match cat.now (listing cat.now tab.now)
        (levels cat.now (one.now ++ two.now) t) from to }
{
    if to <= from {
        return None;
    }
    if t.0 == 0 {
        return Some(CellNumber(from));
    }
    if !begins_above(one, t) {
        if let Some(e) = alone(cat, one, two, t) {
            return forward_alone(cat, tab, size, one, two, t, e, from, to);
        }
    }
    let mut asked = [0u16; 33];
    ask(cat, one, two, t, &mut asked);
    let k = if from == 0 {
        Some(0)
    } else if again {
        None
    } else {
        Some(path_to(cat, tab, size, one, two, &asked, t, CellNumber(from - 1)).long)
    };
    forward(cat, tab, size, one, two, &asked, t, k, from, to)
}
