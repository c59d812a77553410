// The maker of empty tables.
#![tactic(auto)]

ghost use Rattle.std.specs.Prelude.{◌≡◌, ◌≤◌, length};
ghost use Rattle.rules.specs.Outcome.{make_status, made_table};
ghost use Rattle.table_check.specs.Frame.{emptied};

use blocks::moves::clear;
use catalogue::type_range::largest;
use catalogue_check::check::is_good;
use table_check::room::good_room;
use terms::Status;

// R64: the bytes of a table without segments.
#[tactic(auto, unfolding(table_check::specs::Frame::emptied))]
fn write_empty(tab: &mut [u8], size: u8)
    requires { 8 ≤ length tab.old }
    ensures { tab.new ≡ emptied size tab.old }
{
    tab[..8].copy_from_slice(&[b'H', b'D', b'T', 0, 1, size, 0, 0]);
    clear(&mut tab[8..]);
}

// R64: CX, TX, or an empty table in all of the slice.
pub fn make(cat: &[u8], tab: &mut [u8]) -> Status
    ensures { (result ≡ make_status cat.now tab.old) × (tab.new ≡ made_table cat.now tab.old) }
{
    if !is_good(cat) {
        return Status::CX;
    }
    if !good_room(cat, tab) {
        return Status::TX;
    }
    write_empty(tab, 1 + largest(cat));
    Status::Blank
}
