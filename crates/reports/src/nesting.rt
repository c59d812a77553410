// Get-next, and get-next-within-parent under each cell found.
ghost use Rattle.std.specs.Prelude.{◌≡◌, false, ◌++◌, suc, ◌<◌, ◌≤◌, length, Some};
ghost use Rattle.terms.specs.Moves.{moved_onto};
ghost use Rattle.rules.specs.Block.{byte};
ghost use Rattle.rules.specs.Table.{count};
ghost use Rattle.report_loops.specs.Plain.{picked};
ghost use Rattle.reports.specs.Shown.{shown_from};
ghost use Rattle.reports.specs.Onward.{Went};
ghost use Rattle.reports.specs.Given.{Given, GivenBoth};

use crate::shown::put_hit;
use reader::{read_next, read_within};
use terms::statuses::number;
use terms::{CellNumber, Parentage, Position};

// How many cells are shown so far, and the cell that the place is on now.
#[derive(Clone, Copy)]
pub struct Onward {
    pub hits: usize,
    pub cell: CellNumber,
}

// The position of a loop of GNP under cell p that has come to cell c. It is made anew for each call: one that is copied out of an answer has to wait
// until the answer is written.
pub(crate) fn under(p: CellNumber, c: CellNumber) -> Position
    ensures { result ≡ moved_onto c.0 (Some p) false }
{
    Position::fresh().moved_onto(c, Some(p), false)
}

// GNP on the list under cell p until a status ends it; k cells are shown before it. The area is lent, and what a get leaves in it is not read.
fn read_under(
    cat: &[u8],
    tab: &[u8],
    list: &[u8],
    p: CellNumber,
    k: usize,
    area: &mut [u8],
    out: &mut [u8],
) -> Onward
    requires { Given cat.now tab.now list.now (byte tab.now 5) × (p.0 < count tab.now) × (k ≤ suc p.0) × (length area.old ≡ 120) }
    ensures { Went cat.now tab.now list.now p.0 k out.old result out.new }
{
    let mut hits = k;
    let mut at = p;
    loop {
        let a = read_within(cat, tab, list, &list[..0], under(p, at), area);
        if 10 <= number(a.status) {
            return Onward { hits, cell: at };
        }
        at = a.position.cell();
        put_hit(out, hits, at);
        hits += 1;
    }
}

// GN on the first list from fresh until a status ends it; under each cell found GNP on the second, which shows what it finds. The next GN goes on
// from there.
pub(crate) fn nested_sound(cat: &[u8], tab: &[u8], one: &[u8], two: &[u8], out: &mut [u8]) -> usize
    requires { GivenBoth cat.now tab.now one.now two.now (byte tab.now 5) }
    ensures { (result ≡ length (picked cat.now tab.now (one.now ++ two.now)))
        × (out.new ≡ shown_from 0 (picked cat.now tab.now (one.now ++ two.now)) out.old) }
{
    let mut area = [0u8; 120];
    let mut hits = 0;
    let mut at = Position::fresh();
    loop {
        let a = read_next(cat, tab, one, &one[..0], at, &mut area);
        if 10 <= number(a.status) {
            return hits;
        }
        let p = a.position.cell();
        let w = read_under(cat, tab, two, p, hits, &mut area, out);
        hits = w.hits;
        at = under(p, w.cell);
    }
}
