// What a report refuses before it begins: the blocks, then the lists, each once.
ghost use Rattle.std.specs.Prelude.{◌≡◌, true};
ghost use Rattle.terms.specs.Statuses.{verdict};
ghost use Rattle.rules.specs.Catalogue.{good_catalogue};
ghost use Rattle.reports.specs.Report.{lists_fault, report_refusal};

use arguments::lookup::last_of;
use arguments::read::{fault, fault_behind};
use table_check::check::check;
use terms::Status;

// The second list is read on behind the last type of the first.
fn lists_fault(cat: &[u8], one: &[u8], two: &[u8]) -> Result<(), Status>
    requires { good_catalogue cat.now ≡ true }
    ensures { result ≡ verdict (lists_fault cat.now one.now two.now) }
{
    fault(cat, one)?;
    if one.is_empty() {
        return Err(Status::AC);
    }
    if two.is_empty() {
        return Err(Status::AC);
    }
    fault_behind(cat, two, last_of(cat, one).code)
}

pub(crate) fn report_refusal(cat: &[u8], tab: &[u8], one: &[u8], two: &[u8]) -> Result<(), Status>
    ensures { result ≡ verdict (report_refusal cat.now tab.now one.now two.now) }
{
    match check(cat, tab) {
        Status::Blank => lists_fault(cat, one, two),
        refused => Err(refused),
    }
}
