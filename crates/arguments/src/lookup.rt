// The last argument of a sound list, and of two lists as one.
ghost use Rattle.std.specs.Prelude.{◌≡◌, ◌++◌, ◌+◌, eqb, length};
ghost use Rattle.rules.specs.Arguments.{last_argument, list_read};
ghost use Rattle.arguments.specs.Sound.{SoundList};
ghost use Rattle.arguments.specs.Asked.{Pair};

use crate::read::argument_at;
use terms::{Argument, TypeCode};

// The last argument; for the empty list, one of no type.
pub fn last_of(cat: &[u8], list: &[u8]) -> Argument
    requires { SoundList cat.now list.now }
    ensures { result ≡ last_argument (list_read cat.now list.now).arguments }
{
    let mut last = Argument {
        code: TypeCode(0),
        qualification: None,
        next: 0,
    };
    while last.next < list.len() {
        last = argument_at(cat, list, last.next);
    }
    last
}

// The last type of two lists as one; 0, if both are empty.
pub fn last_type(cat: &[u8], one: &[u8], two: &[u8]) -> TypeCode
    requires { Pair cat.now one.now two.now }
    ensures { result ≡ (last_argument (list_read cat.now (one.now ++ two.now)).arguments).code }
{
    if two.len() == 0 {
        return last_of(cat, one).code;
    }
    last_of(cat, two).code
}

// Whether two lists as one are the empty list.
pub fn are_empty(one: &[u8], two: &[u8]) -> bool
    ensures { result ≡ eqb (length (one.now ++ two.now)) 0 }
{
    if one.len() != 0 {
        return false;
    }
    two.len() == 0
}
