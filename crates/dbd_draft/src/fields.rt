// FIELD: one field more, of the last type, and that type's key where it has SEQ.
ghost use Rattle.std.specs.Prelude.{◌≡◌, true, ◌≤◌, ◌<◌, length};
ghost use Rattle.rules.specs.Catalogue.{types, fields};
ghost use Rattle.statements.specs.Statement.{field};
ghost use Rattle.statements.specs.Draft.{taken, with_field};
ghost use Rattle.dbd_draft.specs.Kept.{draft_of, Sound, Left, Keyed};

use crate::Fault;
use blocks::wide;
use catalogue_check::entry::good_span;
use dbd_names::{filled, is_own, write};

// The key of the last type: kind, start and length, and the zeros behind them.
fn set_key(draft: &mut [u8], levels: &[u8; 33], kind: u8, long: u8, start: u8)
    requires sound { Sound draft.old levels.now }
    requires typed { 0 < types draft.old }
    ensures sound { Sound draft.new levels.now }
    ensures keyed { Keyed draft.old kind start long draft.new }
{
    let at = 8 * wide(draft[5]) + 2;
    write(draft, at, &[kind, start, long, 0, 0, 0]);
}

// The field with its name.
fn add_field(draft: &mut [u8], levels: &[u8; 33], name: &[u8; 8], long: u8, start: u8)
    requires sound { Sound draft.old levels.now }
    requires room { fields draft.old < 64 }
    ensures sound { Sound draft.new levels.now }
    ensures added { draft_of draft.new ≡ with_field (draft_of draft.old) name.now 0 long start }
{
    let last = draft[6];
    let entry = [draft[5], start, long, 0];
    write(draft, 264 + 4 * wide(last), &entry);
    write(draft, 784 + 8 * wide(last), name);
    draft[6] = last + 1;
}

// R78: its faults, in their order.
pub(crate) fn take_field(
    draft: &mut [u8],
    levels: &[u8; 33],
    word: &[u8],
    kind: u8,
    long: u8,
    start: u8,
) -> Result<(), Fault>
    requires sound { Sound draft.old levels.now }
    requires word { length word.now ≤ 8 }
    ensures { Left result draft.new levels.now (taken (draft_of draft.old) (field word.now kind long start)) }
{
    let top = draft[5];
    if top == 0 {
        return Err(Fault::Misplaced);
    }
    let entry = 8 * wide(top);
    let length = draft[entry + 1];
    let key = draft[entry + 2];
    if kind != 0 && key != 0 {
        return Err(Fault::Misplaced);
    }
    let name = filled(word);
    let last = draft[6];
    if is_own(&draft[264..], &draft[784..], last, top, &name) {
        return Err(Fault::Twice);
    }
    if 64 <= last || !good_span(start, long, length) {
        return Err(Fault::Unruled);
    }
    if kind != 0 {
        set_key(draft, levels, kind, long, start);
    }
    add_field(draft, levels, &name, long, start);
    Ok(())
}
