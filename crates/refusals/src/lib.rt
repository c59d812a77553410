// The refusals that look only at what is lent, in the order of R61.
#![tactic(auto)]

ghost use Rattle.std.specs.Prelude.{◌≡◌, true, ◌≤◌};
ghost use Rattle.terms.specs.Statuses.{verdict};
ghost use Rattle.rules.specs.Catalogue.{good_catalogue};
ghost use Rattle.rules.specs.Table.{cell_size};
ghost use Rattle.rules.specs.Outcome.{is_gnp, unsound, misused};
ghost use Rattle.arguments.specs.Sound.{SoundList};
ghost use Rattle.refusals.specs.Refusals.{too_short, misused_get, misused_insert, misused_held};

use arguments::lookup::last_of;
use arguments::read::fault;
use cells::lookup::cell_size;
use terms::{Parentage, Position, Status};

// 20, 21, 22: the blocks and the position.
pub fn unsound(cat: &[u8], tab: &[u8], pos: Position) -> Result<(), Status>
    ensures { result ≡ verdict (unsound cat.now tab.now pos) }
{
    if !catalogue_check::check::is_good(cat) {
        return Err(Status::CX);
    }
    if !table_check::check::is_good_on(cat, tab) {
        return Err(Status::TX);
    }
    if !position::is_good_on(cat, tab, cell_size(cat), pos) {
        return Err(Status::PX);
    }
    Ok(())
}

// Whether the call is GNP or GHNP.
fn is_gnp(number: u8) -> bool
    ensures { result ≡ is_gnp number }
{
    number == 3 || number == 6
}

// AB (R56).
fn is_short(size: usize, number: u8, area: &[u8]) -> bool
    requires { 1 ≤ size }
    ensures { result ≡ too_short size number area.now }
{
    number != 9 && area.len() < size - 1
}

// Of a get: 28, 12.
fn misused_get(size: usize, pos: Position, number: u8, area: &[u8]) -> Result<(), Status>
    requires { 1 ≤ size }
    ensures { result ≡ verdict (misused_get size pos number area.now) }
{
    if is_short(size, number, area) {
        return Err(Status::AB);
    }
    if is_gnp(number) && pos.parentage.is_none() {
        return Err(Status::GP);
    }
    Ok(())
}

// Of ISRT: 27, the other AJ, 28.
fn misused_insert(
    cat: &[u8],
    size: usize,
    number: u8,
    list: &[u8],
    area: &[u8],
) -> Result<(), Status>
    requires { (1 ≤ size) × SoundList cat.now list.now }
    ensures { result ≡ verdict (misused_insert cat.now size number list.now area.now) }
{
    if list.is_empty() {
        return Err(Status::AH);
    }
    if last_of(cat, list).qualification.is_some() {
        return Err(Status::AJ);
    }
    if is_short(size, number, area) {
        return Err(Status::AB);
    }
    Ok(())
}

// Of REPL and DLET: the other AJ, 28, 29.
fn misused_held(
    size: usize,
    pos: Position,
    number: u8,
    list: &[u8],
    area: &[u8],
) -> Result<(), Status>
    requires { 1 ≤ size }
    ensures { result ≡ verdict (misused_held size pos number list.now area.now) }
{
    if !list.is_empty() {
        return Err(Status::AJ);
    }
    if is_short(size, number, area) {
        return Err(Status::AB);
    }
    if !pos.hold {
        return Err(Status::DJ);
    }
    Ok(())
}

// 23, list faults, and then what the call of this number looks at.
pub fn misused_sound(
    cat: &[u8],
    size: usize,
    pos: Position,
    number: u8,
    list: &[u8],
    area: &[u8],
) -> Result<(), Status>
    requires { (size ≡ cell_size cat.now) × (good_catalogue cat.now ≡ true) }
    ensures { result ≡ verdict (misused cat.now pos number list.now area.now) }
{
    if number == 0 || 9 < number {
        return Err(Status::AD);
    }
    fault(cat, list)?;
    if number < 7 {
        return misused_get(size, pos, number, area);
    }
    if number == 7 {
        return misused_insert(cat, size, number, list, area);
    }
    misused_held(size, pos, number, list, area)
}
