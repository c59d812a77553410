// What a catalogue and a table say to a caller: sizes, and the segment in a cell. 0 stands for none, since the twins in umbristal_c hand C plain numbers.
ghost use Rattle.std.specs.Prelude.{◌≡◌, ◌+◌, ◌*◌, ◌<◌};
ghost use Rattle.rules.specs.Block.{byte};
ghost use Rattle.rules.specs.Catalogue.{types, largest};
ghost use Rattle.rules.specs.Table.{count};
ghost use Rattle.parts.specs.Blocks.{table_size, cell_type, data_start, data_length};

use blocks::{byte_at, wide};
use catalogue::entries::data_length;
use catalogue::type_range::{is_type, largest};
use cells::lookup::{cell_size, count};
use terms::TypeCode;

// R56: how long an area must be, C − 1.
pub fn umbristal_area_size(cat: &[u8]) -> u8
    ensures { result ≡ largest cat.now (types cat.now) }
{
    largest(cat)
}

// How long a table of so many cells is; 0 for more than 4,096.
pub fn umbristal_table_size(cat: &[u8], cells: usize) -> usize
    ensures { result ≡ table_size cat.now cells }
{
    if 4096 < cells {
        return 0;
    }
    8 + cells * cell_size(cat)
}

// How many segments the table has.
pub fn umbristal_count(tab: &[u8]) -> usize
    ensures { result ≡ count tab.now }
{
    count(tab)
}

// Where a cell begins, by the cell size that the table's own header has.
fn start_by_header(tab: &[u8], cell: usize) -> usize
    requires { cell < 65536 }
    ensures { (result ≡ 8 + cell * byte tab.now 5) × (result < 16777215) }
{
    8 + cell * wide(byte_at(tab, 5))
}

// The type of the segment in a cell; 0 where there is none.
pub fn umbristal_cell_type(tab: &[u8], cell: usize) -> u8
    ensures { result ≡ cell_type tab.now cell }
{
    if count(tab) <= cell {
        return 0;
    }
    byte_at(tab, start_by_header(tab, cell))
}

// At which byte of the table its data begin; 0 where there is no segment.
pub fn umbristal_data_start(tab: &[u8], cell: usize) -> usize
    ensures { (result ≡ data_start tab.now cell) × (result < 16777216) }
{
    if cell >= count(tab) {
        return 0;
    }
    start_by_header(tab, cell) + 1
}

// How many bytes they have; 0 where there is no segment, or its data would not lie in the table.
pub fn umbristal_data_length(cat: &[u8], tab: &[u8], cell: usize) -> u8
    ensures { result ≡ data_length cat.now tab.now cell }
{
    let t = TypeCode(umbristal_cell_type(tab, cell));
    if !is_type(cat, t) {
        return 0;
    }
    let long = data_length(cat, t);
    if tab.len() < umbristal_data_start(tab, cell) + wide(long) {
        return 0;
    }
    long
}
