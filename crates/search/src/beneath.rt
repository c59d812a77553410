// The first match beneath p (R35): in a good table a cell's type tells whether p's run has come to its end, so that the end is not sought.
ghost use Rattle.std.specs.Prelude.{◌≡◌, ◌++◌, ◌≤◌, ◌<◌, ltb};
ghost use Rattle.rules.specs.Cells.{end_at};
ghost use Rattle.rules.specs.Matching.{first_match};
ghost use Rattle.rules.specs.Table.{count, listing};
ghost use Rattle.cells.specs.Sound.{Sound};
ghost use Rattle.search.specs.Good.{Asking, Told, Beneath};
ghost use Rattle.search.specs.Stretch.{levels, stretch_before};

use crate::alone::beneath_alone;
use crate::stretch::{path_to, stretched};
use arguments::alone::alone;
use arguments::asked::ask;
use catalogue::lineage::{is_beneath, level_by, levels};
use cells::lookup::{code_at, count, level_at};
use terms::{CellNumber, TypeCode};

// Whether cell i lies in p's run, which comes up to it at least.
pub fn is_within(cat: &[u8], tab: &[u8], size: usize, p: CellNumber, i: usize) -> bool
    requires { Sound cat.now tab.now size × (p.0 < i) × (i ≤ end_at cat.now (listing cat.now tab.now) p.0) × (p.0 < count tab.now) }
    ensures { result ≡ ltb i (end_at cat.now (listing cat.now tab.now) p.0) }
{
    i < count(tab)
        && is_beneath(
            cat,
            code_at(cat, tab, size, CellNumber(i)),
            code_at(cat, tab, size, p),
        )
}

// The first match from cell `from` on that lies beneath p; k is the stretch of the cell before. Apart from `forward`, which goes from root to root; here
// each cell is asked whether p's run has ended.
pub(crate) fn forward_beneath(
    cat: &[u8],
    tab: &[u8],
    size: usize,
    one: &[u8],
    two: &[u8],
    asked: &[u16; 33],
    t: TypeCode,
    p: CellNumber,
    k: u8,
    from: usize,
) -> Option<CellNumber>
    requires { Told cat.now tab.now one.now two.now asked.now size t × Beneath cat.now tab.now t p.0 from
        × (k ≡ stretch_before cat.now (listing cat.now tab.now) (levels cat.now (one.now ++ two.now) t) from) }
    ensures { result ≡ first_match cat.now (listing cat.now tab.now)
        (levels cat.now (one.now ++ two.now) t) from
        (end_at cat.now (listing cat.now tab.now) p.0) }
{
    let mut row = [0u8; 33];
    levels(cat, &mut row);
    let last = level_by(&row, cat, t);
    let mut long = k;
    for i in from..count(tab) {
        if !is_within(cat, tab, size, p, i) {
            return None;
        }
        let c = CellNumber(i);
        let l = level_at(&row, cat, tab, size, c);
        long = stretched(cat, tab, size, one, two, asked, t, long, l, c);
        if l == last && long == last {
            return Some(c);
        }
    }
    None
}

// The same from any cell behind p. Where the list tests a type above its last it climbs once, for the cell before.
pub fn first_beneath(
    cat: &[u8],
    tab: &[u8],
    size: usize,
    one: &[u8],
    two: &[u8],
    t: TypeCode,
    p: CellNumber,
    from: usize,
) -> Option<CellNumber>
    requires { Asking cat.now tab.now one.now two.now size t × Beneath cat.now tab.now t p.0 from }
    ensures { result ≡ first_match cat.now (listing cat.now tab.now)
        (levels cat.now (one.now ++ two.now) t) from
        (end_at cat.now (listing cat.now tab.now) p.0) }
{
    if let Some(e) = alone(cat, one, two, t) {
        return beneath_alone(cat, tab, size, one, two, t, e, p, from);
    }
    let mut asked = [0u16; 33];
    ask(cat, one, two, t, &mut asked);
    let before = path_to(cat, tab, size, one, two, &asked, t, CellNumber(from - 1));
    forward_beneath(cat, tab, size, one, two, &asked, t, p, before.long, from)
}
