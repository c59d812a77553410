// Argument lists, argument by argument, in a buffer of the caller's that holds every list which can be right (R24). Each function is handed how many bytes
// the list has, and answers how many it has then. What cannot be right, or has no room, spoils the list, and every call refuses it (AC).
ghost use Rattle.std.specs.Prelude.{◌≡◌, [], ◌∷◌, ◌+◌, ◌<◌, ◌≤◌, length, drop};
ghost use Rattle.parts.specs.Lists.{built, written, list_all, list_test};

use blocks::moves::put;
use blocks::wide;
use catalogue::fields::field_length;
use terms::FieldNumber;

// A list of one byte, 0: no type has that code, and an empty list would match every segment.
fn spoil(list: &mut [u8]) -> usize
    requires { 0 < length list.old }
    ensures { (result ≡ 1) × (list.new ≡ 0 ∷ drop 1 list.old) }
{
    list[0] = 0;
    1
}

// The bytes of an argument without a test, where there is room for them.
fn put_all(list: &mut [u8], used: usize, code: u8)
    requires { used + 2 ≤ length list.old }
    ensures { list.new ≡ written list.old used (code ∷ 0 ∷ []) }
{
    list[used] = code;
    list[used + 1] = 0;
}

// An argument that tests nothing: all segments of a type.
pub fn umbristal_list_all(list: &mut [u8; 1845], used: usize, code: u8) -> usize
    ensures { built result list.new ≡ list_all list.old used code }
{
    if 1843 < used {
        return spoil(list);
    }
    put_all(list, used, code);
    used + 2
}

// The bytes of an argument with a test, where there is room for them.
fn put_test(list: &mut [u8], used: usize, code: u8, operator: u8, field: u8, value: &[u8])
    requires { used + 3 + length value.now ≤ length list.old }
    ensures { list.new ≡ written list.old used (code ∷ operator ∷ field ∷ value.now) }
{
    list[used] = code;
    list[used + 1] = operator;
    list[used + 2] = field;
    let at = used + 3;
    put(&mut list[at..], value);
}

// An argument that tests a field: with an operator other than 0, and a value as long as the field.
pub fn umbristal_list_test(
    cat: &[u8],
    list: &mut [u8; 1845],
    used: usize,
    code: u8,
    operator: u8,
    field: u8,
    value: &[u8],
) -> usize
    ensures { built result list.new
        ≡ list_test cat.now list.old used code operator field value.now }
{
    let long = wide(field_length(cat, FieldNumber(field)));
    if operator == 0 || value.len() != long || 1842 < used || 1842 - used < long {
        return spoil(list);
    }
    put_test(list, used, code, operator, field, value);
    used + 3 + long
}
