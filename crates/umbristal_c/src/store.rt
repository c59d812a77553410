// The checks, the maker, the calls and the reports, over slices that the caller lends.
ghost use Rattle.std.specs.Prelude.{◌≡◌};
ghost use Rattle.terms.specs.Statuses.{number};
ghost use Rattle.rules.specs.Position.{position_of};
ghost use Rattle.rules.specs.Outcome.{check_catalogue, check_table, make_status, made_table};
ghost use Rattle.answers.specs.Ready.{SoundFor};
ghost use Rattle.umbristal.specs.Face.{handed_back, face, sound_face, reported_back, report_face};

// R65: the check of a catalogue; 0 or the number of CX.
#[unsafe(no_mangle)]
pub extern "C" fn umbristal_catalogue_check(cat: &[u8]) -> u8
    ensures { result ≡ number (check_catalogue cat.now) }
{
    umbristal::umbristal_catalogue_check(cat)
}

// R65: the check of both blocks; 0 or the number of CX or TX.
#[unsafe(no_mangle)]
pub extern "C" fn umbristal_table_check(cat: &[u8], tab: &[u8]) -> u8
    ensures { result ≡ number (check_table cat.now tab.now) }
{
    umbristal::umbristal_table_check(cat, tab)
}

// R64: makes all of `tab` an empty table and answers 0; or writes nothing and answers the number of CX or TX.
#[unsafe(no_mangle)]
pub extern "C" fn umbristal_table_make(cat: &[u8], tab: &mut [u8]) -> u8
    ensures { (result ≡ number (make_status cat.now tab.old)) × (tab.new ≡ made_table cat.now tab.old) }
{
    umbristal::umbristal_table_make(cat, tab)
}

// The call of this number, on anything at all. The position is lent as a block of 8 bytes; the answer's other parts come back in one number.
#[unsafe(no_mangle)]
pub extern "C" fn umbristal_call(
    cat: &[u8],
    tab: &mut [u8],
    pos: &mut [u8],
    number: u8,
    list: &[u8],
    area: &mut [u8],
) -> u64
    ensures { handed_back result tab.new pos.new area.new
        ≡ face cat.now tab.old pos.old number list.now area.old }
{
    umbristal::umbristal_call(cat, tab, pos, number, list, area)
}

// The same on blocks and a position that a check has accepted and only calls have changed since: nothing of them is tested again.
#[unsafe(no_mangle)]
pub extern "C" fn umbristal_call_sound(
    cat: &[u8],
    tab: &mut [u8],
    pos: &mut [u8],
    number: u8,
    list: &[u8],
    area: &mut [u8],
) -> u64
    requires { SoundFor cat.now tab.old (position_of pos.old) }
    ensures { handed_back result tab.new pos.new area.new
        ≡ sound_face cat.now tab.old pos.old number list.now area.old }
{
    umbristal::umbristal_call_sound(cat, tab, pos, number, list, area)
}

// The report by GN on the first list, with GNP on the second under each cell found: the numbers of the cells shown, 2 bytes each, high first.
#[unsafe(no_mangle)]
pub extern "C" fn umbristal_report_nested(
    cat: &[u8],
    tab: &[u8],
    one: &[u8],
    two: &[u8],
    out: &mut [u8],
) -> u64
    ensures { reported_back result out.new
        ≡ report_face cat.now tab.now one.now two.now out.old }
{
    umbristal::umbristal_report_nested(cat, tab, one, two, out)
}

// The same report by GN alone, on the two lists joined.
#[unsafe(no_mangle)]
pub extern "C" fn umbristal_report_joined(
    cat: &[u8],
    tab: &[u8],
    one: &[u8],
    two: &[u8],
    out: &mut [u8],
) -> u64
    ensures { reported_back result out.new
        ≡ report_face cat.now tab.now one.now two.now out.old }
{
    umbristal::umbristal_report_joined(cat, tab, one, two, out)
}

// The same report by reading every cell.
#[unsafe(no_mangle)]
pub extern "C" fn umbristal_report_plain(
    cat: &[u8],
    tab: &[u8],
    one: &[u8],
    two: &[u8],
    out: &mut [u8],
) -> u64
    ensures { reported_back result out.new
        ≡ report_face cat.now tab.now one.now two.now out.old }
{
    umbristal::umbristal_report_plain(cat, tab, one, two, out)
}
