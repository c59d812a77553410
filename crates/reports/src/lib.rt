// Three reports over one table: get-next with get-next-within-parent under each, get-next alone on the joined list, and a plain reading of every cell.
// All three have one promise, so that no two of them can disagree: how many cells are shown, or the refusal, which shows none.
#![tactic(auto)]

mod nesting;
mod plainly;
mod refused;
mod shown;
mod single;

ghost use Rattle.std.specs.Prelude.{◌≡◌, ◌++◌, IfErr};
ghost use Rattle.rules.specs.Block.{byte};
ghost use Rattle.report_loops.specs.Plain.{picked};
ghost use Rattle.reports.specs.Given.{GivenBoth};
ghost use Rattle.reports.specs.Loop.{Runs, ShowsPicked};
ghost use Rattle.reports.specs.Report.{IsRefusal, told, reported, showing, report};

use crate::nesting::nested_sound;
use crate::plainly::plain_sound;
use crate::refused::report_refusal;
use crate::single::joined_sound;
use cells::lookup::count;
use terms::Status;

// How many cells this loop finds, which are shown. AB where there is no room for all of them: then they are counted first, and nothing is written.
fn shown_by<F: Fn(&[u8], &[u8], &[u8], &[u8], &mut [u8]) -> usize>(
    show: F,
    cat: &[u8],
    tab: &[u8],
    one: &[u8],
    two: &[u8],
    out: &mut [u8],
) -> Result<usize, Status>
    requires runs { Runs (F.pre show) }
    requires shows { ShowsPicked (F.post show) }
    requires given { GivenBoth cat.now tab.now one.now two.now (byte tab.now 5) }
    ensures told { reported (told result) out.new
        ≡ showing (picked cat.now tab.now (one.now ++ two.now)) out.old }
    ensures refused { IfErr result IsRefusal }
{
    if 2 * count(tab) <= out.len() {
        return Ok(show(cat, tab, one, two, out));
    }
    let all = show(cat, tab, one, two, &mut out[..0]);
    if out.len() < 2 * all {
        return Err(Status::AB);
    }
    Ok(show(cat, tab, one, two, out))
}

// The blocks and the lists are tested once.
fn report_by<F: Fn(&[u8], &[u8], &[u8], &[u8], &mut [u8]) -> usize>(
    show: F,
    cat: &[u8],
    tab: &[u8],
    one: &[u8],
    two: &[u8],
    out: &mut [u8],
) -> Result<usize, Status>
    requires runs { Runs (F.pre show) }
    requires shows { ShowsPicked (F.post show) }
    ensures told { reported (told result) out.new
        ≡ report cat.now tab.now one.now two.now out.old }
    ensures refused { IfErr result IsRefusal }
{
    report_refusal(cat, tab, one, two)?;
    shown_by(show, cat, tab, one, two, out)
}

// GN on the first list until GE, with GNP on the second until GE under each cell found.
pub fn nested(
    cat: &[u8],
    tab: &[u8],
    one: &[u8],
    two: &[u8],
    out: &mut [u8],
) -> Result<usize, Status>
    ensures told { reported (told result) out.new ≡ report cat.now tab.now one.now two.now out.old }
    ensures refused { IfErr result IsRefusal }
{
    report_by(nested_sound, cat, tab, one, two, out)
}

// GN alone, on the two lists joined, until GE: one reader asks with both.
pub fn joined(
    cat: &[u8],
    tab: &[u8],
    one: &[u8],
    two: &[u8],
    out: &mut [u8],
) -> Result<usize, Status>
    ensures told { reported (told result) out.new ≡ report cat.now tab.now one.now two.now out.old }
    ensures refused { IfErr result IsRefusal }
{
    report_by(joined_sound, cat, tab, one, two, out)
}

// Every cell from first to last, tested with its ancestors: no search and no place.
pub fn plain(
    cat: &[u8],
    tab: &[u8],
    one: &[u8],
    two: &[u8],
    out: &mut [u8],
) -> Result<usize, Status>
    ensures told { reported (told result) out.new ≡ report cat.now tab.now one.now two.now out.old }
    ensures refused { IfErr result IsRefusal }
{
    report_by(plain_sound, cat, tab, one, two, out)
}
