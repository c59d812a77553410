// The check of a catalogue: the header first, so that a bad block costs little, then each type and each field.
ghost use Rattle.std.specs.Prelude.{◌≡◌, true, ◌&&◌, leb};
ghost use Rattle.forest.specs.Numbers.{range};
ghost use Rattle.rules.specs.Block.{every};
ghost use Rattle.rules.specs.Catalogue.{types, fields, good_type, good_field, good_header, good_catalogue};
ghost use Rattle.rules.specs.Outcome.{check_catalogue};

use crate::entry::{good_field, good_type};
use blocks::{byte_at, is_marked, wide};
use catalogue::entry_bytes::{fields, types};
use terms::{FieldNumber, Status, TypeCode};

// R2: how many types and fields there may be.
fn good_counts(top: u8, last: u8) -> bool
    ensures { result ≡ (leb 1 top && leb top 32 && leb last 64) }
{
    (1..=32).contains(&top) && last <= 64
}

// R2 and R3: the first 8 bytes, and how long the block is.
#[tactic(auto, unfolding(rules::specs::Catalogue::good_header))]
fn good_header(cat: &[u8]) -> bool
    ensures { result ≡ good_header cat.now }
{
    cat.len() >= 8
        && is_marked(b'C', cat)
        && good_counts(types(cat), fields(cat))
        && byte_at(cat, 7) == 0
        && cat.len() == 8 + 8 * wide(types(cat)) + 4 * wide(fields(cat))
}

// The row of levels is filled on the way, each from its parent's.
fn good_types(cat: &[u8]) -> bool
    requires { good_header cat.now ≡ true }
    ensures { result ≡ every (good_type cat.now) (range 1 (types cat.now)) }
{
    let mut levels = [0u8; 33];
    for k in 1..=types(cat) {
        if !good_type(cat, &mut levels, TypeCode(k)) {
            return false;
        }
    }
    true
}

fn good_fields(cat: &[u8]) -> bool
    ensures { result ≡ every (good_field cat.now) (range 1 (fields cat.now)) }
{
    (1..=fields(cat)).all(|f| good_field(cat, FieldNumber(f)))
}

#[tactic(auto, unfolding(rules::specs::Catalogue::good_catalogue))]
pub fn is_good(cat: &[u8]) -> bool
    ensures { result ≡ good_catalogue cat.now }
{
    good_header(cat) && good_types(cat) && good_fields(cat)
}

// R65: CX, or Blank where the catalogue is good.
#[tactic(auto, unfolding(rules::specs::Outcome::check_catalogue))]
pub fn check(cat: &[u8]) -> Status
    ensures { result ≡ check_catalogue cat.now }
{
    if is_good(cat) {
        Status::Blank
    } else {
        Status::CX
    }
}
