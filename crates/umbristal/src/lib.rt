// What programs in other languages link: the checks, the maker and the calls, over slices that the caller lends.
#![tactic(auto)]

mod lent;

ghost use Rattle.std.specs.Prelude.{◌≡◌, true, ◌<◌, ◌≤◌, length};
ghost use Rattle.rules.specs.Block.{byte};
ghost use Rattle.terms.specs.Statuses.{number, verdict};
ghost use Rattle.rules.specs.Position.{position_of};
ghost use Rattle.rules.specs.Outcome.{check_catalogue, check_table, make_status, made_table, unsound};
ghost use Rattle.answers.specs.Ready.{SoundFor};
ghost use Rattle.umbristal.specs.Face.{handed_back, face, sound_face, is_step, reported_back, report_face};

use crate::lent::packed_report;
use blocks::wide;
use cells::lookup::count;
use position::block::{cell_after, is_on, position_of, put_position};
use terms::{CellNumber, Parentage, Position, Status};

// R65: the check of a catalogue; 0 or the number of CX.
pub fn umbristal_catalogue_check(cat: &[u8]) -> u8
    ensures { result ≡ number (check_catalogue cat.now) }
{
    terms::statuses::number(catalogue_check::check::check(cat))
}

// R65: the check of both blocks; 0 or the number of CX or TX.
pub fn umbristal_table_check(cat: &[u8], tab: &[u8]) -> u8
    ensures { result ≡ number (check_table cat.now tab.now) }
{
    terms::statuses::number(table_check::check::check(cat, tab))
}

// R64: makes all of `tab` an empty table and answers 0; or writes nothing and answers the number of CX or TX.
pub fn umbristal_table_make(cat: &[u8], tab: &mut [u8]) -> u8
    ensures { (result ≡ number (make_status cat.now tab.old)) × (tab.new ≡ made_table cat.now tab.old) }
{
    terms::statuses::number(maker::make(cat, tab))
}

// The check before a call. It reads the position for itself, so that the caller's frame holds none meanwhile.
fn unsound(cat: &[u8], tab: &[u8], pos: &[u8]) -> Result<(), Status>
    ensures { result ≡ verdict (unsound cat.now tab.now (position_of pos.now)) }
{
    refusals::unsound(cat, tab, position_of(pos))
}

// The calls below 7 on what is sound. Both exported calls come here and to `changed`: with two callers each, neither is taken in by the compiler, and
// the frame of the gets is not held by the changes.
fn got(cat: &[u8], tab: &[u8], pos: &mut [u8], number: u8, list: &[u8], area: &mut [u8]) -> u64
    requires { SoundFor cat.now tab.now (position_of pos.old) × (number < 7) }
    ensures { handed_back result tab.now pos.new area.new
        ≡ sound_face cat.now tab.now pos.old number list.now area.old }
{
    let p = position_of(pos);
    let a = dli::get_sound(cat, tab, p, number, list, area);
    lent::leave(pos, a)
}

// The calls from 7 on.
fn changed(cat: &[u8], tab: &mut [u8], pos: &mut [u8], number: u8, list: &[u8], area: &[u8]) -> u64
    requires { SoundFor cat.now tab.old (position_of pos.old) × (7 ≤ number) }
    ensures { handed_back result tab.new pos.new area.now
        ≡ sound_face cat.now tab.old pos.old number list.now area.now }
{
    let p = position_of(pos);
    let a = dli::change_sound(cat, tab, p, number, list, area);
    lent::leave(pos, a)
}

// The call of this number, on anything at all. The position is lent as a block of 8 bytes; the answer's other parts come back in one number.
pub fn umbristal_call(
    cat: &[u8],
    tab: &mut [u8],
    pos: &mut [u8],
    number: u8,
    list: &[u8],
    area: &mut [u8],
) -> u64
    ensures { handed_back result tab.new pos.new area.new
        ≡ face cat.now tab.old pos.old number list.now area.old }
{
    if let Err(s) = unsound(cat, tab, pos) {
        return lent::refused(s);
    }
    if number < 7 {
        return got(cat, tab, pos, number, list, area);
    }
    changed(cat, tab, pos, number, list, area)
}

// Whether nothing is left to refuse, and nothing to search.
#[tactic(auto, unfolding(crate::specs::Face::is_step))]
fn is_step(tab: &[u8], number: u8, list: &[u8], area: &[u8]) -> bool
    requires { (5 < length tab.now) × (1 ≤ byte tab.now 5) }
    ensures { result ≡ is_step tab.now number list.now area.now }
{
    number == 2 && list.is_empty() && wide(tab[5]) - 1 <= area.len()
}

// One step of a reading of the whole table. The calls would answer the same; here neither position nor answer is handed on, which is most of what a step
// costs, and the position is written before the data, so that the next step need not wait for it.
fn step(cat: &[u8], tab: &[u8], pos: &mut [u8], list: &[u8], area: &mut [u8]) -> u64
    requires { SoundFor cat.now tab.now (position_of pos.old) × (is_step tab.now 2 list.now area.old ≡ true) }
    ensures { handed_back result tab.now pos.new area.new
        ≡ sound_face cat.now tab.now pos.old 2 list.now area.old }
{
    let size = wide(tab[5]);
    let i = cell_after(pos);
    if count(tab) <= i {
        put_position(pos, Position::fresh());
        return lent::refused(Status::GB);
    }
    let c = CellNumber(i);
    let s = gets::next_status(cat, tab, size, is_on(pos), c);
    let p = Position::fresh().moved_onto(c, Some(c), false);
    put_position(pos, p);
    let t = gets::show(cat, tab, size, c, area);
    lent::packed(answers::told(cat, s, p, t, 0))
}

// The same on blocks and a position that a check has accepted and only calls have changed since: nothing of them is tested again.
pub fn umbristal_call_sound(
    cat: &[u8],
    tab: &mut [u8],
    pos: &mut [u8],
    number: u8,
    list: &[u8],
    area: &mut [u8],
) -> u64
    requires { SoundFor cat.now tab.old (position_of pos.old) }
    ensures { handed_back result tab.new pos.new area.new
        ≡ sound_face cat.now tab.old pos.old number list.now area.old }
{
    if is_step(tab, number, list, area) {
        return step(cat, tab, pos, list, area);
    }
    if number < 7 {
        return got(cat, tab, pos, number, list, area);
    }
    changed(cat, tab, pos, number, list, area)
}

// The report by GN on the first list, with GNP on the second under each cell found: the numbers of the cells shown, 2 bytes each, high first.
pub fn umbristal_report_nested(
    cat: &[u8],
    tab: &[u8],
    one: &[u8],
    two: &[u8],
    out: &mut [u8],
) -> u64
    ensures { reported_back result out.new
        ≡ report_face cat.now tab.now one.now two.now out.old }
{
    packed_report(reports::nested(cat, tab, one, two, out))
}

// The same report by GN alone, on the two lists joined.
pub fn umbristal_report_joined(
    cat: &[u8],
    tab: &[u8],
    one: &[u8],
    two: &[u8],
    out: &mut [u8],
) -> u64
    ensures { reported_back result out.new
        ≡ report_face cat.now tab.now one.now two.now out.old }
{
    packed_report(reports::joined(cat, tab, one, two, out))
}

// The same report by reading every cell.
pub fn umbristal_report_plain(cat: &[u8], tab: &[u8], one: &[u8], two: &[u8], out: &mut [u8]) -> u64
    ensures { reported_back result out.new
        ≡ report_face cat.now tab.now one.now two.now out.old }
{
    packed_report(reports::plain(cat, tab, one, two, out))
}
