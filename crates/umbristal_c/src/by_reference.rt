// The store for COBOL: every block by its address alone (R72).
ghost use Rattle.std.specs.Prelude.{◌≡◌, take};
ghost use Rattle.rules.specs.Position.{position_of};
ghost use Rattle.answers.specs.Ready.{SoundFor};
ghost use Rattle.parts.specs.Result.{told_of};
ghost use Rattle.umbristal.specs.Face.{face, sound_face};
ghost use Rattle.cobol.specs.Lent.{cat_length, tab_length, handed_whole, call_left, told_call, reported_whole, report_left, told_report, checked_whole, make_whole, made_whole};

// R65: the check of catalogue and table.
#[unsafe(no_mangle)]
pub extern "C" fn umbristal_cobol_check(
    ask: &[u8; 21],
    cat: &[u8; 521],
    tab: &[u8; 495625],
    told: &mut [u8; 8],
)
    ensures { told.new ≡ told_of (checked_whole ask.now cat.now tab.now) }
{
    cobol::umbristal_cobol_check(ask, cat, tab, told);
}

// R64: the maker of empty tables.
#[unsafe(no_mangle)]
pub extern "C" fn umbristal_cobol_make(
    ask: &[u8; 21],
    cat: &[u8; 521],
    tab: &mut [u8; 495625],
    told: &mut [u8; 8],
)
    ensures { (told.new ≡ told_of (make_whole ask.now cat.now tab.old))
        × (tab.new ≡ made_whole ask.now cat.now tab.old) }
{
    cobol::umbristal_cobol_make(ask, cat, tab, told);
}

// The call whose number is asked, on anything at all.
#[unsafe(no_mangle)]
pub extern "C" fn umbristal_cobol_call(
    ask: &[u8; 21],
    cat: &[u8; 521],
    tab: &mut [u8; 495625],
    pos: &mut [u8; 8],
    list: &[u8; 1846],
    area: &mut [u8; 120],
    told: &mut [u8; 8],
)
    ensures { call_left told.new tab.new pos.new area.new
        ≡ told_call (handed_whole face ask.now cat.now tab.old pos.old list.now
        area.old) }
{
    cobol::umbristal_cobol_call(ask, cat, tab, pos, list, area, told);
}

// The sound call (R71).
#[unsafe(no_mangle)]
pub extern "C" fn umbristal_cobol_call_sound(
    ask: &[u8; 21],
    cat: &[u8; 521],
    tab: &mut [u8; 495625],
    pos: &mut [u8; 8],
    list: &[u8; 1846],
    area: &mut [u8; 120],
    told: &mut [u8; 8],
)
    requires { SoundFor (take (cat_length ask.now) cat.now) (take (tab_length ask.now) tab.old) (position_of pos.old) }
    ensures { call_left told.new tab.new pos.new area.new
        ≡ told_call (handed_whole sound_face ask.now cat.now tab.old pos.old list.now
        area.old) }
{
    cobol::umbristal_cobol_call_sound(ask, cat, tab, pos, list, area, told);
}

// R69, nested.
#[unsafe(no_mangle)]
pub extern "C" fn umbristal_cobol_report_nested(
    ask: &[u8; 21],
    cat: &[u8; 521],
    tab: &[u8; 495625],
    one: &[u8; 1846],
    two: &[u8; 1846],
    out: &mut [u8; 8192],
    told: &mut [u8; 8],
)
    ensures { report_left told.new out.new
        ≡ told_report (reported_whole ask.now cat.now tab.now one.now two.now
        out.old) }
{
    cobol::umbristal_cobol_report_nested(ask, cat, tab, one, two, out, told);
}

// R69, joined.
#[unsafe(no_mangle)]
pub extern "C" fn umbristal_cobol_report_joined(
    ask: &[u8; 21],
    cat: &[u8; 521],
    tab: &[u8; 495625],
    one: &[u8; 1846],
    two: &[u8; 1846],
    out: &mut [u8; 8192],
    told: &mut [u8; 8],
)
    ensures { report_left told.new out.new
        ≡ told_report (reported_whole ask.now cat.now tab.now one.now two.now
        out.old) }
{
    cobol::umbristal_cobol_report_joined(ask, cat, tab, one, two, out, told);
}

// R69, plain.
#[unsafe(no_mangle)]
pub extern "C" fn umbristal_cobol_report_plain(
    ask: &[u8; 21],
    cat: &[u8; 521],
    tab: &[u8; 495625],
    one: &[u8; 1846],
    two: &[u8; 1846],
    out: &mut [u8; 8192],
    told: &mut [u8; 8],
)
    ensures { report_left told.new out.new
        ≡ told_report (reported_whole ask.now cat.now tab.now one.now two.now
        out.old) }
{
    cobol::umbristal_cobol_report_plain(ask, cat, tab, one, two, out, told);
}
