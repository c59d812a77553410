// Lists that test nothing but their last type: a cell matches by its own type and bytes, and nothing is climbed or carried.
ghost use Rattle.std.specs.Prelude.{◌≡◌, ◌++◌, ◌≤◌, ◌<◌};
ghost use Rattle.rules.specs.Cells.{segment, end_at};
ghost use Rattle.rules.specs.Matching.{first_match};
ghost use Rattle.rules.specs.Table.{count, listing};
ghost use Rattle.search.specs.Good.{Asking, Lone, Beneath};
ghost use Rattle.search.specs.Stretch.{levels, matches_alone};

use crate::agree::heeds;
use crate::beneath::is_within;
use cells::lookup::{code_at, count};
use terms::{CellNumber, TypeCode};

// Whether a cell has type t and satisfies what the lists ask of it, which is entry e.
fn matches_alone(
    cat: &[u8],
    tab: &[u8],
    size: usize,
    one: &[u8],
    two: &[u8],
    t: TypeCode,
    e: usize,
    c: CellNumber,
) -> bool
    requires { Asking cat.now tab.now one.now two.now size t × Lone cat.now (one.now ++ two.now) t e × (c.0 < count tab.now) }
    ensures { result ≡ matches_alone cat.now (one.now ++ two.now) t
        (segment (listing cat.now tab.now) c.0) }
{
    code_at(cat, tab, size, c) == t && heeds(cat, tab, size, one, two, c, e)
}

// The first match from cell `from` on and before cell `to`.
pub(crate) fn forward_alone(
    cat: &[u8],
    tab: &[u8],
    size: usize,
    one: &[u8],
    two: &[u8],
    t: TypeCode,
    e: usize,
    from: usize,
    to: usize,
) -> Option<CellNumber>
    requires { Asking cat.now tab.now one.now two.now size t × Lone cat.now (one.now ++ two.now) t e
        × (0 < t.0) × (to ≤ count tab.now) }
    ensures { result ≡ first_match cat.now (listing cat.now tab.now)
        (levels cat.now (one.now ++ two.now) t) from to }
{
    for i in from..to {
        let c = CellNumber(i);
        if matches_alone(cat, tab, size, one, two, t, e, c) {
            return Some(c);
        }
    }
    None
}

// The first match from cell `from` on that lies beneath p. Apart from `forward_alone`, since one loop for both would take the end as a closure, whose
// promise says no less than the loop does.
pub(crate) fn beneath_alone(
    cat: &[u8],
    tab: &[u8],
    size: usize,
    one: &[u8],
    two: &[u8],
    t: TypeCode,
    e: usize,
    p: CellNumber,
    from: usize,
) -> Option<CellNumber>
    requires { Asking cat.now tab.now one.now two.now size t × Lone cat.now (one.now ++ two.now) t e
        × Beneath cat.now tab.now t p.0 from }
    ensures { result ≡ first_match cat.now (listing cat.now tab.now)
        (levels cat.now (one.now ++ two.now) t) from
        (end_at cat.now (listing cat.now tab.now) p.0) }
{
    for i in from..count(tab) {
        if !is_within(cat, tab, size, p, i) {
            return None;
        }
        if matches_alone(cat, tab, size, one, two, t, e, CellNumber(i)) {
            return Some(CellNumber(i));
        }
    }
    None
}
