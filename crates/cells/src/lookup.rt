// Where a cell lies, and what it says of itself: its type, its level and its data.
ghost use Rattle.std.specs.Prelude.{◌≡◌, ◌-◌, ◌≤◌, ◌<◌, length};
ghost use Rattle.rules.specs.Block.{part};
ghost use Rattle.rules.specs.Catalogue.{types};
ghost use Rattle.rules.specs.Cells.{segment, level_at};
ghost use Rattle.rules.specs.Table.{count, cell_size, listing};
ghost use Rattle.catalogue.specs.Levels.{Levels};
ghost use Rattle.cells.specs.Sound.{Sound};
ghost use Rattle.cells.specs.Lent.{Sized, Inside, InData, start_of};

use blocks::{wide, word_at};
use catalogue::lineage::{level, level_by};
use catalogue::type_range::largest;
use terms::{CellNumber, TypeCode};

// R11: C.
#[tactic(auto, unfolding(rules::specs::Table::cell_size))]
pub fn cell_size(cat: &[u8]) -> usize
    ensures { (result ≡ cell_size cat.now) × (result < 257) }
{
    1 + wide(largest(cat))
}

// R10: n.
#[tactic(auto, unfolding(rules::specs::Table::count))]
pub fn count(tab: &[u8]) -> usize
    ensures { (result ≡ count tab.now) × (result < 65536) }
{
    word_at(tab, 6)
}

// Where cell c begins, and so where the cells before it end. Only this function knows how the cells lie in a table.
pub fn start_of(tab: &[u8], size: usize, c: CellNumber) -> usize
    requires { Inside tab.now size c.0 }
    ensures { (result ≡ start_of tab.now size c.0) × (result ≤ length tab.now) }
{
    8 + c.0 * size
}

pub fn code_at(cat: &[u8], tab: &[u8], size: usize, c: CellNumber) -> TypeCode
    requires { Sized cat.now tab.now size × (c.0 < count tab.now) }
    ensures { result ≡ (segment (listing cat.now tab.now) c.0).code }
{
    let at = start_of(tab, size, c);
    TypeCode(tab[at])
}

// `long` bytes of a cell's data from byte `start` on. A key and a field count from 1: the first data byte stands right behind the type code.
pub fn data_part<'a>(
    cat: &[u8],
    tab: &'a [u8],
    size: usize,
    c: CellNumber,
    start: usize,
    long: usize,
) -> &'a [u8]
    requires { InData cat.now tab.now size c.0 start long }
    ensures { result.now ≡ part (segment (listing cat.now tab.now) c.0).bytes (start - 1) long }
{
    let a = start_of(tab, size, c) + start;
    let e = a + long;
    &tab[a..e]
}

// The level of a cell, by the row of type levels.
pub fn level_at(row: &[u8; 33], cat: &[u8], tab: &[u8], size: usize, c: CellNumber) -> u8
    requires { Sound cat.now tab.now size × (c.0 < count tab.now) × Levels cat.now row.now (types cat.now) }
    ensures { result ≡ level_at cat.now (listing cat.now tab.now) c.0 }
{
    level_by(row, cat, code_at(cat, tab, size, c))
}

// The level of one cell alone.
pub fn level_of(cat: &[u8], tab: &[u8], size: usize, c: CellNumber) -> u8
    requires { Sound cat.now tab.now size × (c.0 < count tab.now) }
    ensures { result ≡ level_at cat.now (listing cat.now tab.now) c.0 }
{
    level(cat, code_at(cat, tab, size, c))
}
