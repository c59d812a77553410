// What a catalogue and a table say to a caller: sizes, and the segment in a cell.
ghost use Rattle.std.specs.Prelude.{◌≡◌, ◌<◌};
ghost use Rattle.rules.specs.Catalogue.{types, largest};
ghost use Rattle.rules.specs.Table.{count};
ghost use Rattle.parts.specs.Blocks.{table_size, cell_type, data_start, data_length};

// R56: how long an area must be, C − 1.
#[unsafe(no_mangle)]
pub extern "C" fn umbristal_area_size(cat: &[u8]) -> u8
    ensures { result ≡ largest cat.now (types cat.now) }
{
    parts::blocks_read::umbristal_area_size(cat)
}

// How long a table of so many cells is; 0 for more than 4,096.
#[unsafe(no_mangle)]
pub extern "C" fn umbristal_table_size(cat: &[u8], cells: usize) -> usize
    ensures { result ≡ table_size cat.now cells }
{
    parts::blocks_read::umbristal_table_size(cat, cells)
}

// How many segments the table has.
#[unsafe(no_mangle)]
pub extern "C" fn umbristal_count(tab: &[u8]) -> usize
    ensures { result ≡ count tab.now }
{
    parts::blocks_read::umbristal_count(tab)
}

// The type of the segment in a cell; 0 where there is none.
#[unsafe(no_mangle)]
pub extern "C" fn umbristal_cell_type(tab: &[u8], cell: usize) -> u8
    ensures { result ≡ cell_type tab.now cell }
{
    parts::blocks_read::umbristal_cell_type(tab, cell)
}

// At which byte of the table its data begin; 0 where there is no segment.
#[unsafe(no_mangle)]
pub extern "C" fn umbristal_data_start(tab: &[u8], cell: usize) -> usize
    ensures { (result ≡ data_start tab.now cell) × (result < 16777216) }
{
    parts::blocks_read::umbristal_data_start(tab, cell)
}

// How many bytes they have; 0 where there is no segment, or its data would not lie in the table.
#[unsafe(no_mangle)]
pub extern "C" fn umbristal_data_length(cat: &[u8], tab: &[u8], cell: usize) -> u8
    ensures { result ≡ data_length cat.now tab.now cell }
{
    parts::blocks_read::umbristal_data_length(cat, tab, cell)
}
