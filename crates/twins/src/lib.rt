// Where a new segment goes among its twins, and whether its unique key is taken.
// The new segment is of type t, with the area's first L bytes.
#![tactic(auto)]

ghost use Rattle.std.specs.Prelude.{◌≡◌, true, ◌+◌, ◌≤◌, ◌<◌, length};
ghost use Rattle.rules.specs.Block.{part};
ghost use Rattle.rules.specs.Packed.{is_number, packed_order};
ghost use Rattle.rules.specs.Catalogue.{types};
ghost use Rattle.rules.specs.Cells.{segment, arriving, keyed, key_order};
ghost use Rattle.rules.specs.Table.{count, listing};
ghost use Rattle.catalogue.specs.Levels.{Levels};
ghost use Rattle.twins.specs.Among.{Brought, New, Keyed, Beneath, stands_to, placed, spot_among};

use blocks::slices::order_of;
use blocks::wide;
use catalogue::entries::{entry_of, key_kind, key_length, key_start, key_value};
use catalogue::lineage::{level_by, levels};
use cells::lookup::{code_at, data_part, start_of};
use std::cmp::Ordering;
use terms::{CellNumber, Operator, TypeCode};
use values::{holds_at, is_value};

// The cell that the new segment becomes, and whether it has a unique key that a twin has already.
#[derive(Clone, Copy)]
pub struct Spot {
    pub at: usize,
    pub taken: bool,
}

// R91: whether the key of the new segment is a value. Any bytes are one where the key is not packed or there is none.
pub fn is_keyed(cat: &[u8], t: TypeCode, area: &[u8]) -> bool
    requires { Brought cat.now t area.now }
    ensures { result ≡ keyed cat.now (arriving cat.now t area.now) }
{
    let w = key_value(cat, t);
    if w == 0 {
        return true;
    }
    let from = wide(key_start(cat, t)) - 1;
    let long = wide(key_length(cat, t));
    is_value(w, &area[from..from + long])
}

// How the packed key in the area, from byte i on, stands to the one in the table from byte j on.
fn packed_order_with(area: &[u8], i: usize, tab: &[u8], j: usize, long: usize) -> Ordering
    requires { (i + long ≤ length area.now) × (j + long ≤ length tab.now) }
    ensures { is_number (part area.now i long) ≡ true → is_number (part tab.now j long) ≡ true
        → result ≡ packed_order (part area.now i long) (part tab.now j long) }
{
    if holds_at(Operator::Lt, area, i, tab, j, long) {
        return Ordering::Less;
    }
    if holds_at(Operator::Eq, area, i, tab, j, long) {
        return Ordering::Equal;
    }
    Ordering::Greater
}

// How the key of the new segment stands to that of cell c, which has its type; without a key, as to an equal one.
fn key_order_with(
    cat: &[u8],
    tab: &[u8],
    size: usize,
    t: TypeCode,
    area: &[u8],
    c: CellNumber,
) -> Ordering
    requires { New cat.now tab.now size t area.now × Keyed cat.now t area.now × (c.0 < count tab.now) × ((segment (listing cat.now tab.now) c.0).code ≡ t) }
    ensures { result ≡ key_order cat.now (arriving cat.now t area.now)
        (segment (listing cat.now tab.now) c.0) }
{
    let entry = entry_of(cat, t);
    let start = wide(cat[entry + 3]);
    if start == 0 {
        return Ordering::Equal;
    }
    let long = wide(cat[entry + 4]);
    let from = start - 1;
    if cat[entry + 7] == 1 {
        return packed_order_with(area, from, tab, start_of(tab, size, c) + start, long);
    }
    order_of(
        &area[from..from + long],
        data_part(cat, tab, size, c, start, long),
    )
}

// How the new segment stands to cell c beneath its parent: greater, it passes c; smaller, it goes before c; equal, c is a
// twin with its key. A level is looked up only for a later type, where a cell of a later group and one beneath a twin have to be told apart. By `<` and
// `==`: `cmp` is computed in full for each cell, by which ISRT behind 4,096 cells takes 1.4 to 1.8 times as long.
fn stands_to(
    cat: &[u8],
    tab: &[u8],
    size: usize,
    row: &[u8; 33],
    t: TypeCode,
    area: &[u8],
    c: CellNumber,
) -> Ordering
    requires { New cat.now tab.now size t area.now × Keyed cat.now t area.now × (c.0 < count tab.now) × Levels cat.now row.now (types cat.now) }
    ensures { result ≡ stands_to cat.now (arriving cat.now t area.now)
        (segment (listing cat.now tab.now) c.0) }
{
    let u = code_at(cat, tab, size, c);
    if u.0 < t.0 {
        return Ordering::Greater;
    }
    if u.0 == t.0 {
        return key_order_with(cat, tab, size, t, area, c);
    }
    if level_by(row, cat, t) < level_by(row, cat, u) {
        return Ordering::Greater;
    }
    Ordering::Less
}

// Passes the cells up to the first that the new segment goes before, and tells whether one of them is a twin with its key. Where the key is
// unique no later one can be, since twins ascend strictly: so the cells behind the spot are not looked at.
fn pass_row(
    cat: &[u8],
    tab: &[u8],
    size: usize,
    t: TypeCode,
    area: &[u8],
    from: usize,
    to: usize,
) -> Spot
    requires { New cat.now tab.now size t area.now × Keyed cat.now t area.now × Beneath cat.now tab.now t from to }
    ensures { result ≡ placed cat.now (listing cat.now tab.now) (arriving cat.now t area.now) from }
{
    let mut row = [0u8; 33];
    levels(cat, &mut row);
    let mut taken = false;
    for at in from..to {
        match stands_to(cat, tab, size, &row, t, area, CellNumber(at)) {
            Ordering::Less => return Spot { at, taken },
            Ordering::Equal => taken = true,
            Ordering::Greater => {}
        }
    }
    Spot { at: to, taken }
}

// R41: where the new segment goes among its twins; R59: whether one of them has its unique key.
// The cells from `from` to before `to` are all those beneath the parent.
pub fn spot_sound(
    cat: &[u8],
    tab: &[u8],
    size: usize,
    t: TypeCode,
    area: &[u8],
    from: usize,
    to: usize,
) -> Spot
    requires { New cat.now tab.now size t area.now × Keyed cat.now t area.now × Beneath cat.now tab.now t from to }
    ensures { result ≡ spot_among cat.now (listing cat.now tab.now)
        (arriving cat.now t area.now) from to }
{
    let s = pass_row(cat, tab, size, t, area, from, to);
    if key_kind(cat, t) == 1 {
        return s;
    }
    Spot { taken: false, ..s }
}
