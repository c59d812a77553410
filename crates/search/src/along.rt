// Along the position (R30, R31; document 000, formulas 36 to 38).
ghost use Rattle.std.specs.Prelude.{◌≡◌, true, ◌++◌};
ghost use Rattle.rules.specs.Matching.{first_match, kept, along};
ghost use Rattle.rules.specs.Position.{good_place};
ghost use Rattle.rules.specs.Table.{count, listing};
ghost use Rattle.search.specs.Good.{Asking, Told};
ghost use Rattle.search.specs.Stretch.{levels};

use crate::alone::forward_alone;
use crate::beneath::forward_beneath;
use crate::forward::forward;
use crate::stretch::path_to;
use arguments::alone::alone;
use arguments::asked::ask;
use catalogue::lineage::level;
use cells::lookup::{count, level_of};
use terms::{CellNumber, Place, TypeCode};

// R30: the segment down to which the way to the place is kept; R31: in a gap there is none.
fn kept(
    cat: &[u8],
    tab: &[u8],
    size: usize,
    one: &[u8],
    two: &[u8],
    asked: &[u16; 33],
    t: TypeCode,
    place: Place,
) -> Option<CellNumber>
    requires { Told cat.now tab.now one.now two.now asked.now size t × (good_place cat.now (listing cat.now tab.now) place ≡ true) }
    ensures { result ≡ kept cat.now (listing cat.now tab.now)
        (levels cat.now (one.now ++ two.now) t) place }
{
    match place {
        Place::On(c) => path_to(cat, tab, size, one, two, asked, t, c).kept,
        Place::Before(_) => None,
    }
}

// The first match of the table, where nothing was kept.
fn first_of_all(
    cat: &[u8],
    tab: &[u8],
    size: usize,
    one: &[u8],
    two: &[u8],
    asked: &[u16; 33],
    t: TypeCode,
) -> Option<CellNumber>
    requires { Told cat.now tab.now one.now two.now asked.now size t }
    ensures { result ≡ first_match cat.now (listing cat.now tab.now)
        (levels cat.now (one.now ++ two.now) t) 0 (count tab.now) }
{
    let n = count(tab);
    if n == 0 {
        return None;
    }
    if t.0 == 0 {
        return Some(CellNumber(0));
    }
    if let Some(e) = alone(cat, one, two, t) {
        return forward_alone(cat, tab, size, one, two, t, e, 0, n);
    }
    forward(cat, tab, size, one, two, asked, t, Some(0), 0, n)
}

// R30: what is left of the list is sought beneath the segment kept; where nothing is left, that segment is the answer.
fn along_by(
    cat: &[u8],
    tab: &[u8],
    size: usize,
    one: &[u8],
    two: &[u8],
    asked: &[u16; 33],
    t: TypeCode,
    place: Place,
) -> Option<CellNumber>
    requires { Told cat.now tab.now one.now two.now asked.now size t × (good_place cat.now (listing cat.now tab.now) place ≡ true) }
    ensures { result ≡ along cat.now (listing cat.now tab.now)
        (levels cat.now (one.now ++ two.now) t) place }
{
    let Some(c) = kept(cat, tab, size, one, two, asked, t, place) else {
        return first_of_all(cat, tab, size, one, two, asked, t);
    };
    let l = level_of(cat, tab, size, c);
    if l == level(cat, t) {
        return Some(c);
    }
    forward_beneath(cat, tab, size, one, two, asked, t, c, l, c.0 + 1)
}

// The same, with a row for the lists.
pub fn along(
    cat: &[u8],
    tab: &[u8],
    size: usize,
    one: &[u8],
    two: &[u8],
    t: TypeCode,
    place: Place,
) -> Option<CellNumber>
    requires { Asking cat.now tab.now one.now two.now size t × (good_place cat.now (listing cat.now tab.now) place ≡ true) }
    ensures { result ≡ along cat.now (listing cat.now tab.now)
        (levels cat.now (one.now ++ two.now) t) place }
{
    let mut asked = [0u16; 33];
    ask(cat, one, two, t, &mut asked);
    along_by(cat, tab, size, one, two, &asked, t, place)
}
