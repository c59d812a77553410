// The writer of DBD statements: a text from a catalogue and its names (R81 to R83).
#![tactic(auto)]

mod lines;
mod text;
mod whole;

ghost use Rattle.std.specs.Prelude.{◌≡◌};
ghost use Rattle.statements.specs.Lent.{write_into, written_back};

use dbd_given::could_give;

// R83: writes the statements to the front of `text` and answers how long they are; or writes nothing and answers CX or AB. The statements are counted
// first, by writing them nowhere.
pub fn umbristal_dbd_write(cat: &[u8], names: &[u8], text: &mut [u8]) -> u64
    ensures { written_back result text.new ≡ write_into cat.now names.now text.old }
{
    if !could_give(cat, names) {
        return 20;
    }
    let long = whole::put_statements(&mut text[..0], cat, names);
    if text.len() < long {
        return 28;
    }
    whole::put_statements(text, cat, names);
    4294967296 * long as u64
}
