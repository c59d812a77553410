// DBD and SEGM: the data base's name, and one type more.
ghost use Rattle.std.specs.Prelude.{◌≡◌, ◌≤◌, ◌<◌, length};
ghost use Rattle.rules.specs.Block.{byte};
ghost use Rattle.statements.specs.Statement.{dbd, segm};
ghost use Rattle.statements.specs.Draft.{taken, ruled_type, with_type};
ghost use Rattle.dbd_draft.specs.Kept.{draft_of, Sound, Left, Named};

use crate::Fault;
use blocks::wide;
use catalogue_check::entry::good_type;
use dbd_names::{filled, place_of, write};
use terms::TypeCode;

// R77: the first statement, and no later one.
pub(crate) fn take_dbd(draft: &mut [u8], levels: &[u8; 33], word: &[u8]) -> Result<(), Fault>
    requires sound { Sound draft.old levels.now }
    requires word { Named word.now }
    ensures { Left result draft.new levels.now (taken (draft_of draft.old) (dbd word.now)) }
{
    if draft[520] != 0 {
        return Err(Fault::Misplaced);
    }
    let name = filled(word);
    write(draft, 520, &name);
    Ok(())
}

// The type with its name, if the rules let it be the next one.
fn add_type(
    draft: &mut [u8],
    levels: &mut [u8; 33],
    name: &[u8; 8],
    above: u8,
    long: u8,
) -> Result<(), Fault>
    requires sound { Sound draft.old levels.old }
    requires based { 0 < byte draft.old 520 }
    ensures { Left result draft.new levels.new (ruled_type (with_type (draft_of draft.old) name.now above long)) }
{
    let top = draft[5];
    if 32 <= top {
        return Err(Fault::Unruled);
    }
    let at = 8 + 8 * wide(top);
    write(draft, at, &[above, long, 0, 0, 0, 0, 0, 0]);
    write(draft, 520 + at, name);
    if !good_type(draft, levels, TypeCode(top + 1)) {
        return Err(Fault::Unruled);
    }
    draft[5] = top + 1;
    Ok(())
}

// R78: its faults, in their order.
pub(crate) fn take_segm(
    draft: &mut [u8],
    levels: &mut [u8; 33],
    word: &[u8],
    parent: &[u8],
    long: u8,
) -> Result<(), Fault>
    requires sound { Sound draft.old levels.old }
    requires word { length word.now ≤ 8 }
    requires parent { length parent.now ≤ 8 }
    ensures { Left result draft.new levels.new
        (taken (draft_of draft.old) (segm word.now parent.now long)) }
{
    if draft[520] == 0 {
        return Err(Fault::Misplaced);
    }
    let top = draft[5];
    let root = parent == b"0".as_slice();
    if root && 0 < top {
        return Err(Fault::Misplaced);
    }
    let name = filled(word);
    if place_of(&draft[528..], top, &name) != 0 {
        return Err(Fault::Twice);
    }
    let above = place_of(&draft[528..], top, &filled(parent));
    if !root && above == 0 {
        return Err(Fault::Orphan);
    }
    add_type(draft, levels, &name, above, long)
}
