// The gets: what is found, the status of it, and the position on it.
#![tactic(auto)]

ghost use Rattle.std.specs.Prelude.{◌≡◌, true, false, [], ◌++◌, suc, ◌<◌, ◌≤◌, length, Some};
ghost use Rattle.terms.specs.Moves.{after_place, is_on, is_absent};
ghost use Rattle.rules.specs.Catalogue.{is_type, good_catalogue};
ghost use Rattle.rules.specs.Cells.{segment, shown_bytes};
ghost use Rattle.rules.specs.Table.{count, listing};
ghost use Rattle.rules.specs.Arguments.{list_read, get_levels};
ghost use Rattle.rules.specs.Calls.{over, get_unique, get_next, get_next_within};
ghost use Rattle.cells.specs.Sound.{Sound};
ghost use Rattle.arguments.specs.Asked.{Pair};
ghost use Rattle.answers.specs.Ready.{Ready, Again, got_at, left};
ghost use Rattle.gets.specs.Status.{change_status, next_status};

use answers::{missed, told};
use arguments::lookup::{are_empty, last_of, last_type};
use blocks::moves::put;
use blocks::wide;
use catalogue::entries::{data_length, parent};
use catalogue::lineage::{level_by, levels};
use cells::lookup::{code_at, count, data_part};
use search::along::along;
use search::beneath::{first_beneath, is_within};
use search::forward::first_match;
use std::cmp::Ordering;
use terms::{Answer, CellNumber, Parentage, Place, Position, Status, TypeCode};

// Writes a cell's L bytes to the front of the area, and tells its type.
pub fn show(cat: &[u8], tab: &[u8], size: usize, c: CellNumber, area: &mut [u8]) -> TypeCode
    requires { Sound cat.now tab.now size × (c.0 < count tab.now) × (size ≤ suc (length area.old)) }
    ensures { (result ≡ (segment (listing cat.now tab.now) c.0).code)
        × (area.new ≡ over (shown_bytes cat.now (segment (listing cat.now tab.now) c.0)) area.old) }
{
    let t = code_at(cat, tab, size, c);
    let long = wide(data_length(cat, t));
    put(area, data_part(cat, tab, size, c, 1, long));
    t
}

// R37: the place goes onto the cell found, and its data to the area.
fn got(
    cat: &[u8],
    tab: &[u8],
    size: usize,
    c: CellNumber,
    s: Status,
    parentage: Parentage,
    hold: bool,
    pos: Position,
    area: &mut [u8],
) -> Answer
    requires { Sound cat.now tab.now size × (c.0 < count tab.now) × (size ≤ suc (length area.old)) }
    ensures { left result area.new
        ≡ got_at cat.now (listing cat.now tab.now) s parentage hold c.0 area.old }
{
    let t = show(cat, tab, size, c, area);
    told(cat, s, pos.moved_onto(c, parentage, hold), t, 0)
}

// The first cell after the place (R34); from a gap, the one behind it.
fn after_place(q: Place) -> usize
    requires { after_place q ≤ 65536 }
    ensures { result ≡ after_place q }
{
    match q {
        Place::On(c) => c.0 + 1,
        Place::Before(c) => c.0,
    }
}

// Whether the place is on a cell.
fn is_on(q: Place) -> bool
    ensures { result ≡ is_on q }
{
    matches!(q, Place::On(_))
}

// GA, GK or blank, of a segment of type t that is got behind one of type u, with an empty list. Twins, a first child and a child of the same parent
// are seen from the codes; only else are levels asked for.
fn change_status(cat: &[u8], u: TypeCode, t: TypeCode) -> Status
    requires { (good_catalogue cat.now ≡ true) × (is_type cat.now u ≡ true) × (is_type cat.now t ≡ true) }
    ensures { result ≡ change_status cat.now u t }
{
    if t == u {
        return Status::Blank;
    }
    let above = parent(cat, t);
    if above == u {
        return Status::Blank;
    }
    if above == parent(cat, u) {
        return Status::GK;
    }
    let mut row = [0u8; 33];
    levels(cat, &mut row);
    match level_by(&row, cat, t).cmp(&level_by(&row, cat, u)) {
        Ordering::Less => Status::GA,
        Ordering::Equal => Status::GK,
        Ordering::Greater => Status::Blank,
    }
}

// The status of cell c, which a get-next with an empty list found: the place was on the cell before it, or in the gap.
pub fn next_status(cat: &[u8], tab: &[u8], size: usize, on: bool, c: CellNumber) -> Status
    requires { Sound cat.now tab.now size × (c.0 < count tab.now) × (on ≡ true → 0 < c.0) }
    ensures { result ≡ next_status cat.now (listing cat.now tab.now) on c.0 }
{
    if !on {
        return Status::Blank;
    }
    let u = code_at(cat, tab, size, CellNumber(c.0 - 1));
    change_status(cat, u, code_at(cat, tab, size, c))
}

// GU (R33): the first match of the table, along the position.
pub fn get_unique(
    cat: &[u8],
    tab: &[u8],
    size: usize,
    pos: Position,
    list: &[u8],
    area: &mut [u8],
    hold: bool,
) -> Answer
    requires { Ready cat.now tab.now size pos list.now × (size ≤ suc (length area.old)) }
    ensures { left result area.new
        ≡ get_unique cat.now (listing cat.now tab.now) pos area.old hold
        (get_levels cat.now list.now (list_read cat.now list.now).arguments) }
{
    let t = last_of(cat, list).code;
    match along(cat, tab, size, list, &list[..0], t, pos.place) {
        Some(c) => got(cat, tab, size, c, Status::Blank, Some(c), hold, pos, area),
        None => missed(Status::GE, pos),
    }
}

// GN with an empty list, which matches every cell: there is nothing to search. GB where no cell is left (R50). It is the call that a
// reading of the whole table makes.
fn get_next_cell(
    cat: &[u8],
    tab: &[u8],
    size: usize,
    pos: Position,
    area: &mut [u8],
    hold: bool,
) -> Answer
    requires { Ready cat.now tab.now size pos [] × (size ≤ suc (length area.old)) }
    ensures { left result area.new
        ≡ get_next cat.now (listing cat.now tab.now) pos area.old hold [] }
{
    let i = after_place(pos.place);
    if count(tab) <= i {
        return missed(Status::GB, pos);
    }
    let c = CellNumber(i);
    let s = next_status(cat, tab, size, is_on(pos.place), c);
    got(cat, tab, size, c, s, Some(c), hold, pos, area)
}

// GN (R34). GB, GA and GK come with an empty list only, where the next cell is the match. `again` tells that the place is on
// a cell that the same lists match, or before the first.
pub fn get_next(
    cat: &[u8],
    tab: &[u8],
    size: usize,
    pos: Position,
    one: &[u8],
    two: &[u8],
    area: &mut [u8],
    hold: bool,
    again: bool,
) -> Answer
    requires { Ready cat.now tab.now size pos (one.now ++ two.now) × Pair cat.now one.now two.now
        × (size ≤ suc (length area.old)) × (again ≡ true → Again cat.now tab.now (one.now ++ two.now) pos) }
    ensures { left result area.new
        ≡ get_next cat.now (listing cat.now tab.now) pos area.old hold
        (get_levels cat.now (one.now ++ two.now)
        (list_read cat.now (one.now ++ two.now)).arguments) }
{
    if are_empty(one, two) {
        return get_next_cell(cat, tab, size, pos, area, hold);
    }
    let t = last_type(cat, one, two);
    let from = after_place(pos.place);
    let Some(c) = first_match(cat, tab, size, one, two, t, again, from, count(tab)) else {
        return missed(Status::GE, pos);
    };
    got(cat, tab, size, c, Status::Blank, Some(c), hold, pos, area)
}

// GNP with an empty list: the next cell, if it is beneath p.
fn get_next_cell_within(
    cat: &[u8],
    tab: &[u8],
    size: usize,
    pos: Position,
    area: &mut [u8],
    hold: bool,
    p: CellNumber,
) -> Answer
    requires { Ready cat.now tab.now size pos [] × (size ≤ suc (length area.old)) × (pos.parentage ≡ Some p) }
    ensures { left result area.new
        ≡ get_next_within cat.now (listing cat.now tab.now) pos area.old hold [] }
{
    let i = after_place(pos.place);
    if !is_within(cat, tab, size, p, i) {
        return missed(Status::GE, pos);
    }
    let c = CellNumber(i);
    let s = next_status(cat, tab, size, is_on(pos.place), c);
    got(cat, tab, size, c, s, Some(p), hold, pos, area)
}

// GNP (R35): GN up to the end of the parentage's run.
pub fn get_next_within(
    cat: &[u8],
    tab: &[u8],
    size: usize,
    pos: Position,
    one: &[u8],
    two: &[u8],
    area: &mut [u8],
    hold: bool,
) -> Answer
    requires { Ready cat.now tab.now size pos (one.now ++ two.now) × Pair cat.now one.now two.now
        × (size ≤ suc (length area.old)) × (is_absent pos.parentage ≡ false) }
    ensures { left result area.new
        ≡ get_next_within cat.now (listing cat.now tab.now) pos area.old hold
        (get_levels cat.now (one.now ++ two.now)
        (list_read cat.now (one.now ++ two.now)).arguments) }
{
    let Some(p) = pos.parentage else {
        return missed(Status::GP, pos);
    };
    if are_empty(one, two) {
        return get_next_cell_within(cat, tab, size, pos, area, hold, p);
    }
    let t = last_type(cat, one, two);
    let from = after_place(pos.place);
    let Some(c) = first_beneath(cat, tab, size, one, two, t, p, from) else {
        return missed(Status::GE, pos);
    };
    got(cat, tab, size, c, Status::Blank, Some(p), hold, pos, area)
}
