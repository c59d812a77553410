// Get-next alone, on the two lists as one.
ghost use Rattle.std.specs.Prelude.{◌≡◌, ◌++◌, length};
ghost use Rattle.rules.specs.Block.{byte};
ghost use Rattle.report_loops.specs.Plain.{picked};
ghost use Rattle.reports.specs.Shown.{shown_from};
ghost use Rattle.reports.specs.Given.{GivenBoth};

use crate::nesting::under;
use crate::shown::put_hit;
use reader::read_again;
use terms::Position;
use terms::statuses::number;

// GN on the two lists from fresh until a status ends it. A good catalogue's cells have at most 120 data bytes.
pub(crate) fn joined_sound(cat: &[u8], tab: &[u8], one: &[u8], two: &[u8], out: &mut [u8]) -> usize
    requires { GivenBoth cat.now tab.now one.now two.now (byte tab.now 5) }
    ensures { (result ≡ length (picked cat.now tab.now (one.now ++ two.now)))
        × (out.new ≡ shown_from 0 (picked cat.now tab.now (one.now ++ two.now)) out.old) }
{
    let mut area = [0u8; 120];
    let mut hits = 0;
    let mut at = Position::fresh();
    loop {
        let a = read_again(cat, tab, one, two, at, &mut area);
        if 10 <= number(a.status) {
            return hits;
        }
        let c = a.position.cell();
        put_hit(out, hits, c);
        hits += 1;
        at = under(c, c);
    }
}
