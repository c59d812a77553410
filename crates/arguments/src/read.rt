// A list read argument by argument, up to its first fault (R26, R27).
ghost use Rattle.std.specs.Prelude.{◌≡◌, []};
ghost use Rattle.rules.specs.Arguments.{operator_of, good_next, is_field_of, argument_at, list_read};
ghost use Rattle.terms.specs.Statuses.{verdict};
ghost use Rattle.arguments.specs.Sound.{Room, untested, rest};

use blocks::wide;
use catalogue::entry_bytes::fields;
use catalogue::fields::{field_length, field_type, field_value};
use catalogue::lineage::is_beneath;
use catalogue::type_range::is_type;
use terms::{Argument, FieldNumber, Operator, Status, Test, TypeCode};
use values::is_number;

// R25: the operator of a number. A list with another has answered AJ before this is asked.
pub fn operator_of(b: u8) -> Operator
    ensures { result ≡ operator_of b }
{
    match b {
        1 => Operator::Eq,
        2 => Operator::Ne,
        3 => Operator::Lt,
        4 => Operator::Le,
        5 => Operator::Gt,
        _ => Operator::Ge,
    }
}

// The argument that begins at byte `at`, as it stands and with nothing of it tested: the one decoder, of a list that is read and of a sound one.
pub(crate) fn argument_at(cat: &[u8], list: &[u8], at: usize) -> Argument
    requires { Room list.now at }
    ensures { result ≡ untested cat.now list.now at }
{
    let t = TypeCode(list[at]);
    let o = list[at + 1];
    if o == 0 {
        return Argument {
            code: t,
            qualification: None,
            next: at + 2,
        };
    }
    let f = FieldNumber(list[at + 2]);
    Argument {
        code: t,
        qualification: Some(Test {
            operator: operator_of(o),
            field: f,
            value: at + 3,
        }),
        next: at + 3 + wide(field_length(cat, f)),
    }
}

// R26: t is a type and beneath the one before it; 0 where no type is before it. Of the list it asks nothing.
fn is_next(cat: &[u8], before: TypeCode, t: TypeCode) -> bool
    ensures { result ≡ good_next cat.now [] before t }
{
    if !is_type(cat, t) {
        return false;
    }
    if before.0 == 0 {
        return true;
    }
    is_beneath(cat, t, before)
}

// R27: the field is one of this type. Of the list it asks nothing.
fn is_field_of(cat: &[u8], t: TypeCode, f: FieldNumber) -> bool
    ensures { result ≡ is_field_of cat.now [] t f }
{
    if f.0 == 0 {
        return false;
    }
    if fields(cat) < f.0 {
        return false;
    }
    field_type(cat, f).0 == t.0
}

// The argument that begins at byte `at`. Past the end of the list there is no type. The field's value type is read while its entry is at hand; any bytes
// are a value where it is not packed.
pub fn read_argument(
    cat: &[u8],
    list: &[u8],
    before: TypeCode,
    at: usize,
) -> Result<Argument, Status>
    ensures { result ≡ argument_at cat.now list.now before at }
{
    if list.len() <= at {
        return Err(Status::AC);
    }
    let t = TypeCode(list[at]);
    if !is_next(cat, before, t) {
        return Err(Status::AC);
    }
    if list.len() <= at + 1 {
        return Err(Status::AJ);
    }
    let o = list[at + 1];
    if o == 0 {
        return Ok(argument_at(cat, list, at));
    }
    if 6 < o {
        return Err(Status::AJ);
    }
    if list.len() <= at + 2 {
        return Err(Status::AJ);
    }
    let f = FieldNumber(list[at + 2]);
    if !is_field_of(cat, t, f) {
        return Err(Status::AK);
    }
    let w = field_value(cat, f);
    let a = argument_at(cat, list, at);
    let next = a.next;
    if list.len() < next {
        return Err(Status::AJ);
    }
    if w != 1 {
        return Ok(a);
    }
    if !is_number(&list[at + 3..next]) {
        return Err(Status::AJ);
    }
    Ok(a)
}

// The first fault of a list that is read on behind an argument of this type.
pub fn fault_behind(cat: &[u8], list: &[u8], last: TypeCode) -> Result<(), Status>
    ensures { result ≡ verdict (rest cat.now list.now last 0).fault }
{
    let mut before = last;
    let mut at = 0;
    while at < list.len() {
        let a = read_argument(cat, list, before, at)?;
        before = a.code;
        at = a.next;
    }
    Ok(())
}

// R26: the list's first fault.
pub fn fault(cat: &[u8], list: &[u8]) -> Result<(), Status>
    ensures { result ≡ verdict (list_read cat.now list.now).fault }
{
    fault_behind(cat, list, TypeCode(0))
}
