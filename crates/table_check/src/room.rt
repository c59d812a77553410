// The room of a table (R12): M follows from the length of the slice.
ghost use Rattle.std.specs.Prelude.{◌≡◌};
ghost use Rattle.rules.specs.Table.{room, good_room};

use cells::lookup::cell_size;

// M: how many cells the slice has room for.
pub(crate) fn room(cat: &[u8], tab: &[u8]) -> usize
    ensures { result ≡ room cat.now tab.now }
{
    if tab.len() < 8 {
        0
    } else {
        (tab.len() - 8) / cell_size(cat)
    }
}

pub fn good_room(cat: &[u8], tab: &[u8]) -> bool
    ensures { result ≡ good_room cat.now tab.now }
{
    let m = room(cat, tab);
    8 <= tab.len() && tab.len() == 8 + m * cell_size(cat) && m <= 4096
}
