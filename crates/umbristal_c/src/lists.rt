// Argument lists, argument by argument, in a buffer of the caller's that holds every list which can be right (R24).
ghost use Rattle.std.specs.Prelude.{◌≡◌};
ghost use Rattle.parts.specs.Lists.{built, list_all, list_test};

// An argument that tests nothing: all segments of a type.
#[unsafe(no_mangle)]
pub extern "C" fn umbristal_list_all(list: &mut [u8; 1845], used: usize, code: u8) -> usize
    ensures { built result list.new ≡ list_all list.old used code }
{
    parts::lists::umbristal_list_all(list, used, code)
}

// An argument that tests a field: with an operator other than 0, and a value as long as the field.
#[unsafe(no_mangle)]
pub extern "C" fn umbristal_list_test(
    cat: &[u8],
    list: &mut [u8; 1845],
    used: usize,
    code: u8,
    operator: u8,
    field: u8,
    value: &[u8],
) -> usize
    ensures { built result list.new
        ≡ list_test cat.now list.old used code operator field value.now }
{
    parts::lists::umbristal_list_test(cat, list, used, code, operator, field, value)
}
