// DBD statements: the reader and the writer (R73 to R83).
ghost use Rattle.std.specs.Prelude.{◌≡◌};
ghost use Rattle.statements.specs.Lent.{read_into, read_back, write_into, written_back};

// R80: reads `text`, and writes the catalogue to the front of `cat` and the list of names to the front of `names`; or writes nothing. Answers T and F,
// or the first fault and its line, or AB.
#[unsafe(no_mangle)]
pub extern "C" fn umbristal_dbd_read(text: &[u8], cat: &mut [u8], names: &mut [u8]) -> u64
    ensures { read_back result cat.new names.new ≡ read_into text.now cat.old names.old }
{
    dbd_read::umbristal_dbd_read(text, cat, names)
}

// R83: writes the statements to the front of `text` and answers how long they are; or writes nothing and answers CX or AB. The statements are counted
// first, by writing them nowhere.
#[unsafe(no_mangle)]
pub extern "C" fn umbristal_dbd_write(cat: &[u8], names: &[u8], text: &mut [u8]) -> u64
    ensures { written_back result text.new ≡ write_into cat.now names.now text.old }
{
    dbd_write::umbristal_dbd_write(cat, names, text)
}
