// The check of a position against the cells of a table (R22).
// What the calls make of a position are the methods of terms::Position.
#![tactic(auto)]

pub mod block;

ghost use Rattle.std.specs.Prelude.{◌≡◌, true};
ghost use Rattle.rules.specs.Position.{good_place, good_parentage, good_hold, good_position};
ghost use Rattle.rules.specs.Table.{listing};
ghost use Rattle.cells.specs.Sound.{Sound};

use cells::lookup::count;
use cells::runs::run_end;
use terms::{Parentage, Place, Position};

// R18: on a cell that there is, or in a gap that there is.
fn good_place(cat: &[u8], tab: &[u8], q: Place) -> bool
    ensures { result ≡ good_place cat.now (listing cat.now tab.now) q }
{
    match q {
        Place::On(c) => c.0 < count(tab),
        Place::Before(c) => c.0 <= count(tab),
    }
}

// R21: where the hold may be set.
fn good_hold(cat: &[u8], tab: &[u8], q: Place, hold: bool) -> bool
    ensures { result ≡ good_hold cat.now (listing cat.now tab.now) q hold }
{
    matches!(q, Place::On(_)) || !hold
}

// R20: on a cell, that cell lies in p's run; in a gap, p is before it and the gap in p's run or right behind it.
fn good_parentage(cat: &[u8], tab: &[u8], size: usize, q: Place, p: Parentage) -> bool
    requires { Sound cat.now tab.now size × (good_place cat.now (listing cat.now tab.now) q ≡ true) }
    ensures { result ≡ good_parentage cat.now (listing cat.now tab.now) q p }
{
    let Some(a) = p else {
        return true;
    };
    match q {
        Place::On(c) => a.0 <= c.0 && c.0 < run_end(cat, tab, size, a).0,
        Place::Before(c) => a.0 < c.0 && c.0 <= run_end(cat, tab, size, a).0,
    }
}

// The check, on a catalogue and a table that are good. Numbers of any size are refused.
#[tactic(auto, unfolding(rules::specs::Position::good_position))]
pub fn is_good_on(cat: &[u8], tab: &[u8], size: usize, p: Position) -> bool
    requires { Sound cat.now tab.now size }
    ensures { result ≡ good_position cat.now (listing cat.now tab.now) p }
{
    good_place(cat, tab, p.place)
        && good_parentage(cat, tab, size, p.place, p.parentage)
        && good_hold(cat, tab, p.place, p.hold)
}
