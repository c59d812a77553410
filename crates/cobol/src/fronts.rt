// The functions of `umbristal` on the fronts of lent blocks, as long as the block `ask` says.
ghost use Rattle.std.specs.Prelude.{◌≡◌, ◌≤◌, length, take};
ghost use Rattle.rules.specs.Position.{position_of};
ghost use Rattle.answers.specs.Ready.{SoundFor};
ghost use Rattle.umbristal.specs.Face.{handed_back, face, sound_face, reported_back};
ghost use Rattle.cobol.specs.Lent.{cat_length, tab_length, Sizes, handed_whole, Reports, ReportSizes, reported_whole, checked_whole, make_whole, made_whole};

use crate::lengths::{area_length, cat_length, list_length, out_length, second_length, tab_length};

pub(crate) fn checked(ask: &[u8; 21], cat: &[u8], tab: &[u8]) -> u8
    requires { (521 ≤ length cat.now) × (495625 ≤ length tab.now) }
    ensures { result ≡ checked_whole ask.now cat.now tab.now }
{
    let c = cat_length(ask);
    let t = tab_length(ask);
    umbristal::umbristal_table_check(&cat[..c], &tab[..t])
}

pub(crate) fn made(ask: &[u8; 21], cat: &[u8], tab: &mut [u8]) -> u8
    requires { (521 ≤ length cat.now) × (495625 ≤ length tab.old) }
    ensures { (result ≡ make_whole ask.now cat.now tab.old)
        × (tab.new ≡ made_whole ask.now cat.now tab.old) }
{
    let c = cat_length(ask);
    let t = tab_length(ask);
    umbristal::umbristal_table_make(&cat[..c], &mut tab[..t])
}

pub(crate) fn called(
    ask: &[u8; 21],
    cat: &[u8],
    tab: &mut [u8],
    pos: &mut [u8],
    list: &[u8],
    area: &mut [u8],
) -> u64
    requires { Sizes cat.now tab.old list.now area.old }
    ensures { handed_back result tab.new pos.new area.new
        ≡ handed_whole face ask.now cat.now tab.old pos.old list.now area.old }
{
    let c = cat_length(ask);
    let t = tab_length(ask);
    let l = list_length(ask);
    let a = area_length(ask);
    let number = ask[0];
    umbristal::umbristal_call(
        &cat[..c],
        &mut tab[..t],
        pos,
        number,
        &list[..l],
        &mut area[..a],
    )
}

// Beside `called` and not one with it: what each leaves is a `Face` of its own, which no parameter holds, and only this one asks for sound blocks.
pub(crate) fn called_sound(
    ask: &[u8; 21],
    cat: &[u8],
    tab: &mut [u8],
    pos: &mut [u8],
    list: &[u8],
    area: &mut [u8],
) -> u64
    requires { Sizes cat.now tab.old list.now area.old
        × SoundFor (take (cat_length ask.now) cat.now) (take (tab_length ask.now) tab.old) (position_of pos.old) }
    ensures { handed_back result tab.new pos.new area.new
        ≡ handed_whole sound_face ask.now cat.now tab.old pos.old list.now area.old }
{
    let c = cat_length(ask);
    let t = tab_length(ask);
    let l = list_length(ask);
    let a = area_length(ask);
    let number = ask[0];
    umbristal::umbristal_call_sound(
        &cat[..c],
        &mut tab[..t],
        pos,
        number,
        &list[..l],
        &mut area[..a],
    )
}

// The report, whichever of the three it is.
pub(crate) fn reported<F: Fn(&[u8], &[u8], &[u8], &[u8], &mut [u8]) -> u64>(
    report: F,
    ask: &[u8; 21],
    cat: &[u8],
    tab: &[u8],
    one: &[u8],
    two: &[u8],
    out: &mut [u8],
) -> u64
    requires runs { F.IsAlwaysCallable report }
    requires reports { Reports (F.post report) }
    requires sizes { ReportSizes cat.now tab.now one.now two.now out.old }
    ensures { reported_back result out.new
        ≡ reported_whole ask.now cat.now tab.now one.now two.now out.old }
{
    let c = cat_length(ask);
    let t = tab_length(ask);
    let l = list_length(ask);
    let m = second_length(ask);
    let o = out_length(ask);
    report(&cat[..c], &tab[..t], &one[..l], &two[..m], &mut out[..o])
}
