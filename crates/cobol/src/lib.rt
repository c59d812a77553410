// The store for COBOL, which passes by reference and takes no result but an int: every block is lent by its address alone and has the size that stands here,
// how much of it counts is said in the block `ask`, and the result is told in a block of 8 bytes (R72).
#![tactic(auto)]

mod fronts;
mod lengths;

ghost use Rattle.std.specs.Prelude.{◌≡◌, take};
ghost use Rattle.rules.specs.Position.{position_of};
ghost use Rattle.answers.specs.Ready.{SoundFor};
ghost use Rattle.parts.specs.Result.{told_of};
ghost use Rattle.umbristal.specs.Face.{face, sound_face};
ghost use Rattle.cobol.specs.Lent.{cat_length, tab_length, handed_whole, call_left, told_call};
ghost use Rattle.cobol.specs.Lent.{reported_whole, report_left, told_report, checked_whole, make_whole, made_whole};

use crate::fronts::reported;
use parts::told::tell;
use umbristal::{umbristal_report_joined, umbristal_report_nested, umbristal_report_plain};

// R65: the check of catalogue and table.
pub fn umbristal_cobol_check(
    ask: &[u8; 21],
    cat: &[u8; 521],
    tab: &[u8; 495625],
    told: &mut [u8; 8],
)
    ensures { told.new ≡ told_of (checked_whole ask.now cat.now tab.now) }
{
    tell(fronts::checked(ask, cat, tab) as u64, told);
}

// R64: the maker of empty tables.
pub fn umbristal_cobol_make(
    ask: &[u8; 21],
    cat: &[u8; 521],
    tab: &mut [u8; 495625],
    told: &mut [u8; 8],
)
    ensures { (told.new ≡ told_of (make_whole ask.now cat.now tab.old))
        × (tab.new ≡ made_whole ask.now cat.now tab.old) }
{
    tell(fronts::made(ask, cat, tab) as u64, told);
}

// The call whose number is asked, on anything at all.
pub fn umbristal_cobol_call(
    ask: &[u8; 21],
    cat: &[u8; 521],
    tab: &mut [u8; 495625],
    pos: &mut [u8; 8],
    list: &[u8; 1846],
    area: &mut [u8; 120],
    told: &mut [u8; 8],
)
    ensures { call_left told.new tab.new pos.new area.new
        ≡ told_call (handed_whole face ask.now cat.now tab.old pos.old list.now
        area.old) }
{
    tell(fronts::called(ask, cat, tab, pos, list, area), told);
}

// The sound call (R71).
pub fn umbristal_cobol_call_sound(
    ask: &[u8; 21],
    cat: &[u8; 521],
    tab: &mut [u8; 495625],
    pos: &mut [u8; 8],
    list: &[u8; 1846],
    area: &mut [u8; 120],
    told: &mut [u8; 8],
)
    requires { SoundFor (take (cat_length ask.now) cat.now) (take (tab_length ask.now) tab.old) (position_of pos.old) }
    ensures { call_left told.new tab.new pos.new area.new
        ≡ told_call (handed_whole sound_face ask.now cat.now tab.old pos.old list.now
        area.old) }
{
    tell(fronts::called_sound(ask, cat, tab, pos, list, area), told);
}

// R69, nested.
pub fn umbristal_cobol_report_nested(
    ask: &[u8; 21],
    cat: &[u8; 521],
    tab: &[u8; 495625],
    one: &[u8; 1846],
    two: &[u8; 1846],
    out: &mut [u8; 8192],
    told: &mut [u8; 8],
)
    ensures { report_left told.new out.new
        ≡ told_report (reported_whole ask.now cat.now tab.now one.now two.now
        out.old) }
{
    let r = reported(umbristal_report_nested, ask, cat, tab, one, two, out);
    tell(r, told);
}

// R69, joined.
pub fn umbristal_cobol_report_joined(
    ask: &[u8; 21],
    cat: &[u8; 521],
    tab: &[u8; 495625],
    one: &[u8; 1846],
    two: &[u8; 1846],
    out: &mut [u8; 8192],
    told: &mut [u8; 8],
)
    ensures { report_left told.new out.new
        ≡ told_report (reported_whole ask.now cat.now tab.now one.now two.now
        out.old) }
{
    let r = reported(umbristal_report_joined, ask, cat, tab, one, two, out);
    tell(r, told);
}

// R69, plain.
pub fn umbristal_cobol_report_plain(
    ask: &[u8; 21],
    cat: &[u8; 521],
    tab: &[u8; 495625],
    one: &[u8; 1846],
    two: &[u8; 1846],
    out: &mut [u8; 8192],
    told: &mut [u8; 8],
)
    ensures { report_left told.new out.new
        ≡ told_report (reported_whole ask.now cat.now tab.now one.now two.now
        out.old) }
{
    let r = reported(umbristal_report_plain, ask, cat, tab, one, two, out);
    tell(r, told);
}
