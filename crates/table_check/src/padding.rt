// The bytes that no segment uses (R13): behind the data of a cell, and all of a free cell.
ghost use Rattle.std.specs.Prelude.{◌≡◌, ◌<◌, drop};
ghost use Rattle.forest.specs.Numbers.{range};
ghost use Rattle.rules.specs.Block.{every, zeros};
ghost use Rattle.rules.specs.Table.{count, cell_start, padded};
ghost use Rattle.cells.specs.Lent.{Sized};

use blocks::slices::all_zero;
use blocks::wide;
use catalogue::entries::data_length;
use cells::lookup::{code_at, count, start_of};
use terms::CellNumber;

// Whether cell i holds zeros behind its data. A type that is not in the catalogue may claim more data than the cell has room for.
fn is_padded(cat: &[u8], tab: &[u8], size: usize, i: usize) -> bool
    requires { Sized cat.now tab.now size × (i < count tab.now) }
    ensures { result ≡ padded cat.now tab.now i }
{
    let used = 1 + wide(data_length(cat, code_at(cat, tab, size, CellNumber(i))));
    let at = start_of(tab, size, CellNumber(i));
    size <= used || all_zero(&tab[at + used..at + size])
}

pub(crate) fn all_padded(cat: &[u8], tab: &[u8], size: usize) -> bool
    requires { Sized cat.now tab.now size }
    ensures { result ≡ every (padded cat.now tab.now) (range 0 (count tab.now)) }
{
    (0..count(tab)).all(|i| is_padded(cat, tab, size, i))
}

pub(crate) fn all_free(cat: &[u8], tab: &[u8], size: usize) -> bool
    requires { Sized cat.now tab.now size }
    ensures { result ≡ zeros (drop (cell_start cat.now (count tab.now)) tab.now) }
{
    let from = start_of(tab, size, CellNumber(count(tab)));
    all_zero(&tab[from..])
}
