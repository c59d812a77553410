// What a call answers where it changes nothing, and what it tells of a segment.
#![tactic(auto)]

ghost use Rattle.std.specs.Prelude.{◌≡◌, true};
ghost use Rattle.rules.specs.Catalogue.{is_type, good_catalogue};
ghost use Rattle.rules.specs.Calls.{bare, after_miss};
ghost use Rattle.answers.specs.Told.{stopped_answer, told};

use catalogue::entries::data_length;
use catalogue::lineage::level;
use terms::statuses::number;
use terms::{Answer, Position, Status, TypeCode};

// R46: from status 10 on nothing is told but the status.
pub fn bare(s: Status, p: Position) -> Answer
    ensures { result ≡ bare s p }
{
    Answer {
        status: s,
        position: p,
        code: TypeCode(0),
        level: 0,
        length: 0,
        removed: 0,
    }
}

// GE and GP drop the hold only; after GB the position is fresh, so that get-next starts over.
pub fn missed(s: Status, p: Position) -> Answer
    ensures { result ≡ bare s (after_miss s p) }
{
    if number(s) == 10 {
        return bare(s, Position::fresh());
    }
    bare(s, p.hold_dropped())
}

// R62: a refusal leaves the position as it was.
pub fn stopped(s: Status, p: Position) -> Answer
    ensures { result ≡ stopped_answer s p }
{
    if 20 <= number(s) {
        return bare(s, p);
    }
    missed(s, p)
}

// R46: what is told of the segment that the call was about.
pub fn told(cat: &[u8], s: Status, p: Position, t: TypeCode, removed: usize) -> Answer
    requires { (good_catalogue cat.now ≡ true) × (is_type cat.now t ≡ true) }
    ensures { result ≡ told cat.now s p t removed }
{
    Answer {
        status: s,
        position: p,
        code: t,
        level: level(cat, t),
        length: data_length(cat, t),
        removed: removed,
    }
}
