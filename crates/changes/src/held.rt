// REPL and DLET: what is held is replaced, or removed with all beneath it.
ghost use Rattle.std.specs.Prelude.{◌≡◌, true, suc, ◌<◌, ◌≤◌, length};
ghost use Rattle.rules.specs.Block.{Bytes, same_bytes};
ghost use Rattle.rules.specs.Cells.{segment, arriving, key};
ghost use Rattle.rules.specs.Table.{count, listing};
ghost use Rattle.rules.specs.Calls.{replace, delete};
ghost use Rattle.rules.specs.Outcome.{landed};
ghost use Rattle.cells.specs.Sound.{Sound};
ghost use Rattle.answers.specs.Ready.{Held, made};

use answers::{bare, told};
use blocks::slices::are_same;
use blocks::wide;
use catalogue::entries::{key_length, key_start};
use cells::lookup::{code_at, data_part};
use cells::runs::run_end;
use terms::{Answer, CellNumber, Position, Status, TypeCode};
use update::edits::{remove_cells_sound, replace_cell_sound};

// Whether the area has the key of cell c, a segment of type t, byte for byte.
fn has_key(cat: &[u8], tab: &[u8], size: usize, c: CellNumber, t: TypeCode, area: &[u8]) -> bool
    requires { Sound cat.now tab.now size × (c.0 < count tab.now)
        × (t ≡ (segment (listing cat.now tab.now) c.0).code) × (size ≤ suc (length area.now)) }
    ensures { result ≡ same_bytes (key cat.now (segment (listing cat.now tab.now) c.0))
        (key cat.now (arriving cat.now t area.now)) }
{
    let long = wide(key_length(cat, t));
    if long == 0 {
        return true;
    }
    let start = wide(key_start(cat, t));
    let a = start - 1;
    let e = a + long;
    let own = &area[a..e];
    are_same(data_part(cat, tab, size, c, start, long), own)
}

// REPL (R43, R58): new data for the held segment, unless it would change the key.
pub fn replace(cat: &[u8], tab: &mut [u8], size: usize, pos: Position, area: &[u8]) -> Answer
    requires { Held cat.now tab.old size pos × (size ≤ suc (length area.now)) }
    ensures { made result tab.new area.now
        ≡ landed cat.now tab.old
        (replace cat.now (listing cat.now tab.old) pos area.now) }
{
    let c = pos.cell();
    let t = code_at(cat, tab, size, c);
    if !has_key(cat, tab, size, c, t, area) {
        return bare(Status::DA, pos);
    }
    replace_cell_sound(cat, tab, size, c, area);
    told(cat, Status::Blank, pos.hold_dropped(), t, 0)
}

// DLET (R44, R45): the held segment goes with all beneath it.
pub fn delete(cat: &[u8], tab: &mut [u8], size: usize, pos: Position) -> Answer
    requires { Held cat.now tab.old size pos }
    ensures { (area : Bytes) → made result tab.new area
        ≡ landed cat.now tab.old (delete cat.now (listing cat.now tab.old) pos area) }
{
    let c = pos.cell();
    let t = code_at(cat, tab, size, c);
    let e = run_end(cat, tab, size, c);
    let n = e.0 - c.0;
    remove_cells_sound(cat, tab, size, c, e);
    told(cat, Status::Blank, pos.after_delete(c, n), t, n)
}
