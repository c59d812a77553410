// A cell and the count, written into the part of a table that is lent.
ghost use Rattle.std.specs.Prelude.{◌≡◌, ◌∷◌, ◌++◌, suc, ◌-◌, ◌≤◌, ◌<◌, length, take, drop, replicate};
ghost use Rattle.rules.specs.Block.{word_bytes};

use blocks::moves::{clear, put};
use terms::TypeCode;

// R13: the bytes of a cell.
pub(crate) fn write_cell(cell: &mut [u8], t: TypeCode, from: &[u8])
    requires { length from.now < length cell.old }
    ensures { cell.new ≡ t.0 ∷ from.now ++ replicate (length cell.old - suc (length from.now)) 0 }
{
    let end = 1 + from.len();
    put(&mut cell[1..end], from);
    clear(&mut cell[end..]);
    cell[0] = t.0;
}

// R10: n, in bytes 6 and 7.
pub(crate) fn set_count(tab: &mut [u8], n: usize)
    requires { (8 ≤ length tab.old) × (n < 65536) }
    ensures { tab.new ≡ take 6 tab.old ++ (word_bytes n ++ drop 8 tab.old) }
{
    tab[6] = (n / 256) as u8;
    tab[7] = (n % 256) as u8;
}
