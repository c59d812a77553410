// What the reader hands out (R79, R80).
ghost use Rattle.std.specs.Prelude.{◌≡◌, ◌+◌, ◌*◌, ◌≤◌, length};
ghost use Rattle.statements.specs.Draft.{catalogue_of, names_of};
ghost use Rattle.statements.specs.Dbd.{given};
ghost use Rattle.statements.specs.Lent.{high, onto, handed_out, read_back};
ghost use Rattle.dbd_draft.specs.Kept.{draft_of, fault_of};
ghost use Rattle.dbd_read.specs.Reading.{Wide, Counted};

use crate::LineFault;
use blocks::wide;
use dbd_names::write;

// A fault and its line, as one number; a line too great for 32 bits is told as their greatest.
pub(crate) fn told_fault(first: LineFault) -> u64
    ensures { result ≡ fault_of first.fault + high first.line }
{
    let line = first.line.min(4294967295);
    u64::from(u8::from(first.fault)) + 4294967296 * line as u64
}

// The catalogue, to the front of a buffer: its header and types, then its fields.
fn put_catalogue(draft: &[u8], top: usize, last: usize, cat: &mut [u8])
    requires counted { Counted draft.now top last }
    requires room { 8 + 8 * top + 4 * last ≤ length cat.old }
    ensures { cat.new ≡ onto (catalogue_of (draft_of draft.now)) cat.old }
{
    let types = 8 + 8 * top;
    let fields = 264 + 4 * last;
    write(cat, 0, &draft[..types]);
    write(cat, types, &draft[264..fields]);
}

// The list of names: its header, the names of the data base and of the segments, then those of the fields.
fn put_names(draft: &[u8], top: usize, last: usize, names: &mut [u8])
    requires counted { Counted draft.now top last }
    requires room { 16 + 8 * top + 8 * last ≤ length names.old }
    ensures { names.new ≡ onto (names_of (draft_of draft.now)) names.old }
{
    let segments = 528 + 8 * top;
    let own = 784 + 8 * last;
    let behind = 16 + 8 * top;
    write(names, 0, &draft[..8]);
    names[2] = b'N';
    write(names, 8, &draft[520..segments]);
    write(names, behind, &draft[784..own]);
}

// Both blocks, if there is room for both.
pub(crate) fn hand_out(draft: &[u8], cat: &mut [u8], names: &mut [u8]) -> u64
    requires { Wide draft.now }
    ensures { read_back result cat.new names.new
        ≡ handed_out (given (draft_of draft.now)) cat.old names.old }
{
    let top = wide(draft[5]);
    let last = wide(draft[6]);
    if cat.len() < 8 + 8 * top + 4 * last || names.len() < 16 + 8 * top + 8 * last {
        return 28;
    }
    put_catalogue(draft, top, last, cat);
    put_names(draft, top, last, names);
    256 * u64::from(draft[5]) + 65536 * u64::from(draft[6])
}
