// The nine calls: `call` takes anything, `call_sound` what a check has accepted and only calls have changed since, `called_get_sound` and `called_change_sound`
// what no refusal stops. The gets stand apart from the changes, so that the frame of one is not held by the other.
#![tactic(auto)]

ghost use Rattle.std.specs.Prelude.{◌≡◌, ◌<◌, ◌≤◌};
ghost use Rattle.rules.specs.Outcome.{outcome, sound_outcome};
ghost use Rattle.answers.specs.Ready.{SoundFor, made, left};
ghost use Rattle.dli.specs.Called.{Callable, Getting, called_outcome, get_of};

use blocks::wide;
use terms::{Answer, Position};

// GU, GN or GNP, with hold or without.
fn get(
    cat: &[u8],
    tab: &[u8],
    size: usize,
    pos: Position,
    form: u8,
    list: &[u8],
    area: &mut [u8],
    hold: bool,
) -> Answer
    requires { Getting cat.now tab.now size pos form list.now area.old }
    ensures { left result area.new
        ≡ get_of cat.now tab.now pos form list.now area.old hold }
{
    match form {
        1 => gets::get_unique(cat, tab, size, pos, list, area, hold),
        2 => gets::get_next(cat, tab, size, pos, list, &list[..0], area, hold, false),
        _ => gets::get_next_within(cat, tab, size, pos, list, &list[..0], area, hold),
    }
}

// The get of this number alone: its refusals have been looked at, by whomever and in whatever order, and none holds.
pub fn called_get_sound(
    cat: &[u8],
    tab: &[u8],
    size: usize,
    pos: Position,
    number: u8,
    list: &[u8],
    area: &mut [u8],
) -> Answer
    requires { Callable cat.now tab.now size pos number list.now area.old × (number < 7) }
    ensures { made result tab.now area.new
        ≡ called_outcome cat.now tab.now pos number list.now area.old }
{
    if number < 4 {
        return get(cat, tab, size, pos, number, list, area, false);
    }
    get(cat, tab, size, pos, number - 3, list, area, true)
}

// ISRT, REPL or DLET alone, as the gets above.
pub fn called_change_sound(
    cat: &[u8],
    tab: &mut [u8],
    size: usize,
    pos: Position,
    number: u8,
    list: &[u8],
    area: &[u8],
) -> Answer
    requires { Callable cat.now tab.old size pos number list.now area.now × (7 ≤ number) }
    ensures { made result tab.new area.now
        ≡ called_outcome cat.now tab.old pos number list.now area.now }
{
    match number {
        7 => changes::insert::insert(cat, tab, size, pos, list, area),
        8 => changes::held::replace(cat, tab, size, pos, area),
        _ => changes::held::delete(cat, tab, size, pos),
    }
}

// The calls below 7 on blocks and a position that are sound: the gets, and 0, which is refused. The table is only read.
pub fn get_sound(
    cat: &[u8],
    tab: &[u8],
    pos: Position,
    number: u8,
    list: &[u8],
    area: &mut [u8],
) -> Answer
    requires { SoundFor cat.now tab.now pos × (number < 7) }
    ensures { made result tab.now area.new
        ≡ sound_outcome cat.now tab.now pos number list.now area.old }
{
    let size = wide(tab[5]);
    if let Err(s) = refusals::misused_sound(cat, size, pos, number, list, area) {
        return answers::stopped(s, pos);
    }
    called_get_sound(cat, tab, size, pos, number, list, area)
}

// The calls from 7 on: the changes, and what is refused above 9. The area is only read.
pub fn change_sound(
    cat: &[u8],
    tab: &mut [u8],
    pos: Position,
    number: u8,
    list: &[u8],
    area: &[u8],
) -> Answer
    requires { SoundFor cat.now tab.old pos × (7 ≤ number) }
    ensures { made result tab.new area.now
        ≡ sound_outcome cat.now tab.old pos number list.now area.now }
{
    let size = wide(tab[5]);
    if let Err(refusal) = refusals::misused_sound(cat, size, pos, number, list, area) {
        return answers::stopped(refusal, pos);
    }
    called_change_sound(cat, tab, size, pos, number, list, area)
}

// The call of this number, on blocks and a position that are sound: nothing of them is tested again.
pub fn call_sound(
    cat: &[u8],
    tab: &mut [u8],
    pos: Position,
    number: u8,
    list: &[u8],
    area: &mut [u8],
) -> Answer
    requires { SoundFor cat.now tab.old pos }
    ensures { made result tab.new area.new
        ≡ sound_outcome cat.now tab.old pos number list.now area.old }
{
    if number < 7 {
        return get_sound(cat, tab, pos, number, list, area);
    }
    change_sound(cat, tab, pos, number, list, area)
}

// The call of this number, on anything at all, which ends with one of the 19 statuses (R48), in the order of R61.
pub fn call(
    cat: &[u8],
    tab: &mut [u8],
    pos: Position,
    number: u8,
    list: &[u8],
    area: &mut [u8],
) -> Answer
    ensures { made result tab.new area.new
        ≡ outcome cat.now tab.old pos number list.now area.old }
{
    if let Err(s) = refusals::unsound(cat, tab, pos) {
        return answers::stopped(s, pos);
    }
    call_sound(cat, tab, pos, number, list, area)
}
