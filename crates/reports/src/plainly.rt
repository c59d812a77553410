// The plain reading: every cell from first to last, tested with its ancestors. What is carried from cell to cell is how far down its path the last one
// agreed, so that no cell is climbed from.
ghost use Rattle.std.specs.Prelude.{◌≡◌, ◌++◌, length};
ghost use Rattle.rules.specs.Block.{byte};
ghost use Rattle.report_loops.specs.Plain.{picked};
ghost use Rattle.reports.specs.Shown.{shown_from};
ghost use Rattle.reports.specs.Given.{GivenBoth};

use crate::shown::show_met;
use arguments::asked::ask;
use arguments::lookup::last_type;
use blocks::wide;
use catalogue::lineage::{level_by, levels};
use cells::lookup::{count, level_at};
use search::stretch::stretched;
use terms::CellNumber;

// A cell matches (R28) where its level is the last type's and its path agrees down to it.
pub(crate) fn plain_sound(cat: &[u8], tab: &[u8], one: &[u8], two: &[u8], out: &mut [u8]) -> usize
    requires { GivenBoth cat.now tab.now one.now two.now (byte tab.now 5) }
    ensures { (result ≡ length (picked cat.now tab.now (one.now ++ two.now)))
        × (out.new ≡ shown_from 0 (picked cat.now tab.now (one.now ++ two.now)) out.old) }
{
    let size = wide(tab[5]);
    let t = last_type(cat, one, two);
    let mut asked = [0u16; 33];
    ask(cat, one, two, t, &mut asked);
    let mut row = [0u8; 33];
    levels(cat, &mut row);
    let last = level_by(&row, cat, t);
    let mut long: u8 = 0;
    let mut hits = 0;
    for i in 0..count(tab) {
        let c = CellNumber(i);
        let l = level_at(&row, cat, tab, size, c);
        long = stretched(cat, tab, size, one, two, &asked, t, long, l, c);
        hits = show_met(l == last && long == last, c, hits, out);
    }
    hits
}
