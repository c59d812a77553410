// Stored keys (R89): each is a value of its value type. Where no key is packed any bytes are one, and the cells are not looked at.
ghost use Rattle.std.specs.Prelude.{◌≡◌, true, ◌<◌};
ghost use Rattle.rules.specs.Block.{every};
ghost use Rattle.rules.specs.Catalogue.{good_catalogue};
ghost use Rattle.rules.specs.Cells.{segment};
ghost use Rattle.rules.specs.Table.{count, listing};
ghost use Rattle.cells.specs.Lent.{Sized};
ghost use Rattle.table_check.specs.Keys.{plain_keys, keyed_cell, has_keys};

use blocks::wide;
use catalogue::entries::{key_length, key_start, key_value};
use catalogue::entry_bytes::types;
use catalogue::type_range::is_type;
use cells::lookup::{code_at, count, data_part};
use terms::{CellNumber, TypeCode};
use values::is_value;

// Whether no type has a packed key.
fn plain_keys(cat: &[u8]) -> bool
    ensures { result ≡ plain_keys cat.now }
{
    (1..=types(cat)).all(|k| key_value(cat, TypeCode(k)) == 0)
}

// Whether cell c is of a type of the catalogue, and its key a value.
fn is_keyed_cell(cat: &[u8], tab: &[u8], size: usize, c: CellNumber) -> bool
    requires { (good_catalogue cat.now ≡ true) × Sized cat.now tab.now size × (c.0 < count tab.now) }
    ensures { result ≡ keyed_cell cat.now (segment (listing cat.now tab.now) c.0) }
{
    let t = code_at(cat, tab, size, c);
    let start = wide(key_start(cat, t));
    let long = wide(key_length(cat, t));
    is_type(cat, t) && is_value(key_value(cat, t), data_part(cat, tab, size, c, start, long))
}

fn all_keyed(cat: &[u8], tab: &[u8], size: usize) -> bool
    requires { (good_catalogue cat.now ≡ true) × Sized cat.now tab.now size }
    ensures { result ≡ every (keyed_cell cat.now) (listing cat.now tab.now) }
{
    (0..count(tab)).all(|i| is_keyed_cell(cat, tab, size, CellNumber(i)))
}

// R89, where the listing is good.
#[tactic(auto, unfolding(crate::specs::Keys::has_keys))]
pub(crate) fn has_keys(cat: &[u8], tab: &[u8], size: usize) -> bool
    requires { (good_catalogue cat.now ≡ true) × Sized cat.now tab.now size }
    ensures { result ≡ has_keys cat.now tab.now }
{
    plain_keys(cat) || all_keyed(cat, tab, size)
}
