// An answer in one number, and its position in the lent block.
ghost use Rattle.std.specs.Prelude.{◌≡◌, ◌<◌};
ghost use Rattle.terms.specs.Statuses.{number};
ghost use Rattle.rules.specs.Outcome.{block_after};
ghost use Rattle.reports.specs.Report.{told};
ghost use Rattle.umbristal.specs.Face.{packed, packed_report, Fitting};

use position::block::put_position;
use terms::statuses::number;
use terms::{Answer, Status};

// Status, type, level and length are a byte each; removed stands above them.
#[tactic(auto, unfolding(crate::specs::Face::packed))]
pub(crate) fn packed(a: Answer) -> u64
    requires { a.removed < 65536 }
    ensures { result ≡ packed a }
{
    let status = u64::from(number(a.status));
    let code = u64::from(a.code.0);
    let level = u64::from(a.level);
    let length = u64::from(a.length);
    let removed = a.removed as u64;
    status + 256 * code + 65536 * level + 16777216 * length + 4294967296 * removed
}

// Leaves the position in its block, which a refusal does not touch (R62), and hands back the rest of the answer.
#[tactic(auto, unfolding(rules::specs::Outcome::block_after))]
pub(crate) fn leave(block: &mut [u8], a: Answer) -> u64
    requires { Fitting block.old a }
    ensures { (result ≡ packed a) × (block.new ≡ block_after block.old a) }
{
    if number(a.status) < 20 {
        put_position(block, a.position);
    }
    packed(a)
}

// A refusal before the call is its number alone: type, level, length and removed are 0, and the block stays.
pub(crate) fn refused(s: Status) -> u64
    ensures { result ≡ number s }
{
    u64::from(number(s))
}

// The status of a report is the lowest byte; the number of cells stands where `removed` does.
#[tactic(auto, unfolding(crate::specs::Face::packed_report))]
pub(crate) fn packed_report(r: Result<usize, Status>) -> u64
    requires { (told r).hits < 65536 }
    ensures { result ≡ packed_report (told r) }
{
    match r {
        Ok(hits) => 4294967296 * hits as u64,
        Err(s) => refused(s),
    }
}
