// The check of a table: the header first, so that a bad block costs little, then the bytes that no segment uses, then the
// keys, then the listing.
ghost use Rattle.std.specs.Prelude.{◌≡◌, true};
ghost use Rattle.rules.specs.Catalogue.{good_catalogue};
ghost use Rattle.rules.specs.Table.{good_table};
ghost use Rattle.rules.specs.Outcome.{check_table};
ghost use Rattle.table_check.specs.Frame.{good_frame};

use crate::keys::has_keys;
use crate::padding::{all_free, all_padded};
use crate::readers::is_listing;
use crate::room::{good_room, room};
use blocks::{byte_at, is_marked, wide};
use catalogue_check::check::is_good;
use cells::lookup::{cell_size, count};
use terms::Status;

// R10 to R12: mark, version, C, n and the room.
#[tactic(auto, unfolding(crate::specs::Frame::good_frame))]
fn good_frame(cat: &[u8], tab: &[u8]) -> bool
    ensures { result ≡ good_frame cat.now tab.now }
{
    good_room(cat, tab)
        && is_marked(b'T', tab)
        && wide(byte_at(tab, 5)) == cell_size(cat)
        && count(tab) <= room(cat, tab)
}

// Whether the table is good, on a catalogue that is.
pub fn is_good_on(cat: &[u8], tab: &[u8]) -> bool
    requires { good_catalogue cat.now ≡ true }
    ensures { result ≡ good_table cat.now tab.now }
{
    let size = cell_size(cat);
    good_frame(cat, tab)
        && all_padded(cat, tab, size)
        && all_free(cat, tab, size)
        && has_keys(cat, tab, size)
        && is_listing(cat, tab, size)
}

// R65: CX, TX, or Blank where both blocks are good.
#[tactic(auto, unfolding(rules::specs::Outcome::check_table))]
pub fn check(cat: &[u8], tab: &[u8]) -> Status
    ensures { result ≡ check_table cat.now tab.now }
{
    if !is_good(cat) {
        Status::CX
    } else if !is_good_on(cat, tab) {
        Status::TX
    } else {
        Status::Blank
    }
}
