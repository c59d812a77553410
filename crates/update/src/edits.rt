// The three changes of the cells: one more, other data in one, a run of them less. Of the bytes behind the count only those of the cells in use,
// from the one concerned on, are lent to be moved.
ghost use Rattle.std.specs.Prelude.{◌≡◌};
ghost use Rattle.update.specs.Edits.{with_cell, with_data, without_cells, Insertable, Replaceable, Removable};

use crate::moves::{set_count, write_cell};
use blocks::moves::{clear, put, shift_down, shift_up};
use blocks::wide;
use catalogue::entries::data_length;
use cells::lookup::{code_at, count, start_of};
use terms::{CellNumber, TypeCode};

// ISRT (R39): the new cell goes before cell r, and the cells from r on move up by one.
pub fn insert_cell_sound(
    cat: &[u8],
    tab: &mut [u8],
    size: usize,
    r: CellNumber,
    t: TypeCode,
    area: &[u8],
)
    requires { Insertable cat.now tab.old size r.0 t area.now }
    ensures { tab.new ≡ with_cell cat.now tab.old r.0 t area.now }
{
    let n = count(tab) + 1;
    let long = wide(data_length(cat, t));
    let start = start_of(tab, size, r);
    let next = start + size;
    let end = start_of(tab, size, CellNumber(n));
    shift_up(&mut tab[start..end], size);
    write_cell(&mut tab[start..next], t, &area[..long]);
    set_count(tab, n);
}

// REPL (R43): the data of the cell from the front of the area.
pub fn replace_cell_sound(cat: &[u8], tab: &mut [u8], size: usize, c: CellNumber, area: &[u8])
    requires { Replaceable cat.now tab.old size c.0 area.now }
    ensures { tab.new ≡ with_data cat.now tab.old c.0 area.now }
{
    let t = code_at(cat, tab, size, c);
    let long = wide(data_length(cat, t));
    let start = start_of(tab, size, c) + 1;
    let end = start + long;
    put(&mut tab[start..end], &area[..long]);
}

// DLET (R44): the cells from c up to e go, those behind move down, and what becomes free is zeros.
pub fn remove_cells_sound(cat: &[u8], tab: &mut [u8], size: usize, c: CellNumber, e: CellNumber)
    requires { Removable cat.now tab.old size c.0 e.0 }
    ensures { tab.new ≡ without_cells cat.now tab.old c.0 e.0 }
{
    let n = count(tab);
    let run = e.0 - c.0;
    let start = start_of(tab, size, c);
    let gap = start_of(tab, size, e) - start;
    let end = start_of(tab, size, CellNumber(n));
    let freed = end - gap;
    shift_down(&mut tab[start..end], gap);
    clear(&mut tab[freed..end]);
    set_count(tab, n - run);
}
