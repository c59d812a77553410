// A hit in the bytes lent for them.
ghost use Rattle.std.specs.Prelude.{◌≡◌, ◌+◌, ◌<◌};
ghost use Rattle.terms.specs.Choice.{pick};
ghost use Rattle.reports.specs.Shown.{put_hit};

use terms::CellNumber;

// R69: one hit. A hit that there is no room for is counted all the same, so that a report can be counted before it is written.
pub(crate) fn put_hit(out: &mut [u8], k: usize, c: CellNumber)
    requires { (k < 65536) × (c.0 < 65536) }
    ensures { out.new ≡ put_hit k c.0 out.old }
{
    let i = c.0;
    let at = 2 * k;
    if at + 1 < out.len() {
        out[at] = (i / 256) as u8;
        out[at + 1] = (i % 256) as u8;
    }
}

// Shows cell c as hit k, if it meets the lists; answers how many are shown then.
pub(crate) fn show_met(met: bool, c: CellNumber, k: usize, out: &mut [u8]) -> usize
    requires { (k < 65536) × (c.0 < 65536) }
    ensures { (result ≡ pick met (k + 1) k) × (out.new ≡ pick met (put_hit k c.0 out.old) out.old) }
{
    if !met {
        return k;
    }
    put_hit(out, k, c);
    k + 1
}
