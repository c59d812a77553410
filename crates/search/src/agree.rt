// One segment against what the lists ask of its type (R28).
ghost use Rattle.std.specs.Prelude.{◌≡◌, true, ◌++◌, ◌<◌, ◌≤◌};
ghost use Rattle.rules.specs.Arguments.{list_read, asked_of, meant};
ghost use Rattle.rules.specs.Cells.{segment};
ghost use Rattle.rules.specs.Matching.{satisfies, is_implied};
ghost use Rattle.rules.specs.Table.{count, listing};
ghost use Rattle.arguments.specs.Asked.{test_at};
ghost use Rattle.search.specs.Good.{Testable, Heeding, Told};
ghost use Rattle.search.specs.Stretch.{agrees_alone};

use arguments::asked::asked_of;
use arguments::read::operator_of;
use blocks::slices::order_of;
use blocks::wide;
use catalogue::fields::entry_of;
use cells::lookup::{code_at, data_part, start_of};
use terms::operators::holds;
use terms::{CellNumber, FieldNumber, TypeCode};
use values::holds_at;

// The test of R25: the field is on the left. The value begins at byte v of the list, behind operator and field number. A field that holds no value of
// its value type satisfies no operator (R90).
fn passes(cat: &[u8], tab: &[u8], size: usize, list: &[u8], c: CellNumber, v: usize) -> bool
    requires { Testable cat.now tab.now list.now size c.0 v }
    ensures { result ≡ satisfies cat.now (segment (listing cat.now tab.now) c.0)
        (meant cat.now list.now (test_at list.now v)) }
{
    let o = operator_of(list[v - 2]);
    let entry = entry_of(cat, FieldNumber(list[v - 1]));
    let start = wide(cat[entry + 1]);
    let long = wide(cat[entry + 2]);
    if cat[entry + 3] == 1 {
        return holds_at(o, tab, start_of(tab, size, c) + start, list, v, long);
    }
    let field = data_part(cat, tab, size, c, start, long);
    holds(o, order_of(field, &list[v..v + long]))
}

// Whether a segment satisfies what the lists ask of its type; e is their entry for that type, and a test's value lies in one of them.
pub(crate) fn heeds(
    cat: &[u8],
    tab: &[u8],
    size: usize,
    one: &[u8],
    two: &[u8],
    c: CellNumber,
    e: usize,
) -> bool
    requires { Heeding cat.now tab.now one.now two.now size c.0 e }
    ensures { result ≡ satisfies cat.now (segment (listing cat.now tab.now) c.0)
        (asked_of cat.now (one.now ++ two.now) (list_read cat.now (one.now ++ two.now)).arguments
        (segment (listing cat.now tab.now) c.0).code) }
{
    if e < 3 {
        return true;
    }
    if e < one.len() {
        return passes(cat, tab, size, one, c, e);
    }
    passes(cat, tab, size, two, c, e - one.len())
}

// Whether a segment's type is t or above it, and the segment satisfies what the lists ask of that type.
pub(crate) fn agrees(
    cat: &[u8],
    tab: &[u8],
    size: usize,
    one: &[u8],
    two: &[u8],
    asked: &[u16; 33],
    t: TypeCode,
    c: CellNumber,
) -> bool
    requires { Told cat.now tab.now one.now two.now asked.now size t × (c.0 < count tab.now) }
    ensures { result ≡ agrees_alone cat.now (one.now ++ two.now) t
        (segment (listing cat.now tab.now) c.0) }
{
    let e = asked_of(asked, code_at(cat, tab, size, c));
    e != 0 && heeds(cat, tab, size, one, two, c, e)
}

// Whether the lists leave out the type of a cell that agrees.
pub(crate) fn is_implied(
    cat: &[u8],
    tab: &[u8],
    size: usize,
    one: &[u8],
    two: &[u8],
    asked: &[u16; 33],
    t: TypeCode,
    c: CellNumber,
) -> bool
    requires { Told cat.now tab.now one.now two.now asked.now size t × (c.0 < count tab.now)
        × (agrees_alone cat.now (one.now ++ two.now) t (segment (listing cat.now tab.now) c.0) ≡ true) }
    ensures { result ≡ is_implied (asked_of cat.now (one.now ++ two.now)
        (list_read cat.now (one.now ++ two.now)).arguments
        (segment (listing cat.now tab.now) c.0).code) }
{
    asked_of(asked, code_at(cat, tab, size, c)) == 1
}
