// The reader of DBD statements: a catalogue and its names from a text (R73 to R80).
#![tactic(auto)]

mod lines;
mod out;

ghost use Rattle.std.specs.Prelude.{◌≡◌};
ghost use Rattle.statements.specs.Lent.{read_into, read_back};

use dbd_draft::Fault;

// The first fault of a text, and its line, from 1.
#[derive(Clone, Copy)]
pub struct LineFault {
    fault: Fault,
    line: usize,
}

// R80: reads `text`, and writes the catalogue to the front of `cat` and the list of names to the front of `names`; or writes nothing. Answers T and F,
// or the first fault and its line, or AB.
pub fn umbristal_dbd_read(text: &[u8], cat: &mut [u8], names: &mut [u8]) -> u64
    ensures { read_back result cat.new names.new ≡ read_into text.now cat.old names.old }
{
    let mut draft = [0u8; 1296];
    let mut levels = [0u8; 33];
    draft[..5].copy_from_slice(b"HDC\0\x01");
    match lines::read_lines(&mut draft, &mut levels, text) {
        Ok(()) => out::hand_out(&draft, cat, names),
        Err(first) => out::told_fault(first),
    }
}
