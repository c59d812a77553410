// ISRT: the parent along the position, the spot among the twins, what refuses it there, and the cell put in.
ghost use Rattle.std.specs.Prelude.{◌≡◌, suc, ◌<◌, ◌≤◌, length};
ghost use Rattle.terms.specs.Statuses.{verdict};
ghost use Rattle.rules.specs.Cells.{arriving, row_at};
ghost use Rattle.rules.specs.Table.{count, room, listing};
ghost use Rattle.rules.specs.Arguments.{list_read, last_argument, parent_levels};
ghost use Rattle.rules.specs.Calls.{is_one_of, insert};
ghost use Rattle.rules.specs.Outcome.{landed};
ghost use Rattle.cells.specs.Sound.{Sound};
ghost use Rattle.update.specs.Edits.{Insertable};
ghost use Rattle.answers.specs.Ready.{Ready, made};
ghost use Rattle.changes.specs.Among.{parented, insert_status, put_in};

use answers::{bare, missed, told};
use arguments::lookup::last_of;
use catalogue::entries::parent;
use cells::lookup::count;
use cells::runs::run_end;
use search::along::along;
use terms::{Answer, CellNumber, Parentage, Position, Status, TypeCode};
use twins::{Spot, is_keyed, spot_sound};
use update::edits::insert_cell_sound;

// Where a new segment may go: among the cells from the first number to before the second, which are all those beneath its parent; and whether it is
// beneath the parentage there.
#[derive(Clone, Copy)]
pub struct Siblings {
    pub from: usize,
    pub to: usize,
    pub beneath: bool,
}

// Whether the parentage is cell p or an ancestor of it: then what is put in beneath p is beneath the parentage.
fn is_one_of_row(cat: &[u8], tab: &[u8], size: usize, p: CellNumber, parentage: Parentage) -> bool
    requires { Sound cat.now tab.now size × (p.0 < count tab.now) }
    ensures { result ≡ is_one_of (row_at cat.now (listing cat.now tab.now) p.0) parentage }
{
    let Some(q) = parentage else {
        return false;
    };
    if p.0 < q.0 {
        return false;
    }
    p.0 < run_end(cat, tab, size, q).0
}

// R40: the parent by the arguments before the last, if there is one; a root needs none.
fn found_parent(
    cat: &[u8],
    tab: &[u8],
    size: usize,
    pos: Position,
    list: &[u8],
    t: TypeCode,
) -> Option<Siblings>
    requires { Ready cat.now tab.now size pos list.now × (0 < length list.now)
        × (t ≡ (last_argument (list_read cat.now list.now).arguments).code) }
    ensures { result ≡ parented cat.now (listing cat.now tab.now) pos t
        (parent_levels cat.now list.now (list_read cat.now list.now).arguments) }
{
    if t.0 == 1 {
        return Some(Siblings {
            from: 0,
            to: count(tab),
            beneath: false,
        });
    }
    let p = along(cat, tab, size, list, &list[..0], parent(cat, t), pos.place)?;
    let end = run_end(cat, tab, size, p).0;
    let beneath = is_one_of_row(cat, tab, size, p, pos.parentage);
    Some(Siblings {
        from: p.0 + 1,
        to: end,
        beneath,
    })
}

// What refuses a new segment at its spot, II before FX.
fn insert_refused(cat: &[u8], tab: &[u8], size: usize, spot: Spot) -> Result<(), Status>
    requires { Sound cat.now tab.now size }
    ensures { result ≡ verdict (insert_status spot.taken (count tab.now) (room cat.now tab.now)) }
{
    if spot.taken {
        return Err(Status::II);
    }
    if (tab.len() - 8) / size == count(tab) {
        return Err(Status::FX);
    }
    Ok(())
}

// The new segment becomes cell `at`, and the cells from there on move up; `beneath` says whether it is beneath the parentage there.
fn put_sound(
    cat: &[u8],
    tab: &mut [u8],
    size: usize,
    pos: Position,
    at: CellNumber,
    t: TypeCode,
    area: &[u8],
    beneath: bool,
) -> Answer
    requires { Insertable cat.now tab.old size at.0 t area.now }
    ensures { made result tab.new area.now ≡ landed cat.now tab.old
        (put_in cat.now (listing cat.now tab.old) pos area.now at.0
        (arriving cat.now t area.now) beneath) }
{
    insert_cell_sound(cat, tab, size, at, t, area);
    told(cat, Status::Blank, pos.after_insert(at, beneath), t, 0)
}

// The parent, the key, the spot among the twins, what refuses it there, and the cell put in, in this order.
pub fn insert(
    cat: &[u8],
    tab: &mut [u8],
    size: usize,
    pos: Position,
    list: &[u8],
    area: &[u8],
) -> Answer
    requires { Ready cat.now tab.old size pos list.now × (size ≤ suc (length area.now)) × (0 < length list.now) }
    ensures { made result tab.new area.now ≡ landed cat.now tab.old
        (insert cat.now (listing cat.now tab.old) pos area.now (room cat.now tab.old)
        (last_argument (list_read cat.now list.now).arguments).code
        (parent_levels cat.now list.now (list_read cat.now list.now).arguments)) }
{
    let t = last_of(cat, list).code;
    let Some(among) = found_parent(cat, tab, size, pos, list, t) else {
        return missed(Status::GE, pos);
    };
    if !is_keyed(cat, t, area) {
        return bare(Status::PD, pos);
    }
    let spot = spot_sound(cat, tab, size, t, area, among.from, among.to);
    if let Err(refusal) = insert_refused(cat, tab, size, spot) {
        return bare(refusal, pos);
    }
    put_sound(
        cat,
        tab,
        size,
        pos,
        CellNumber(spot.at),
        t,
        area,
        among.beneath,
    )
}
