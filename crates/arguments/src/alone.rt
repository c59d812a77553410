// Lists that test nothing but one type: one walk tells that, and what they ask of it, without a row.
ghost use Rattle.std.specs.Prelude.{◌≡◌, ◌++◌, ◌+◌, ◌<◌, length};
ghost use Rattle.rules.specs.Arguments.{list_read};
ghost use Rattle.arguments.specs.Sound.{SoundList};
ghost use Rattle.arguments.specs.Asked.{Pair};
ghost use Rattle.arguments.specs.Alone.{alone_of, alone_behind};

use crate::asked::entry_of;
use crate::read::argument_at;
use terms::TypeCode;

// One list's part, which begins `base` bytes behind the front of the first; e is the entry of t before it. None: another type is tested too.
fn alone_in(cat: &[u8], list: &[u8], base: usize, t: TypeCode, e: usize) -> Option<usize>
    requires { SoundList cat.now list.now × (base + length list.now < 65536) }
    ensures { result ≡ alone_behind base t (list_read cat.now list.now).arguments e }
{
    let mut own = e;
    let mut at = 0;
    while at < list.len() {
        let a = argument_at(cat, list, at);
        let q = a.qualification;
        if a.code.0 != t.0 {
            if q.is_some() {
                return None;
            }
        } else if own == 1 {
            own = entry_of(base, q);
        }
        at = a.next;
    }
    Some(own)
}

// The entry of t in the two lists as one, if they test no other type.
pub fn alone(cat: &[u8], one: &[u8], two: &[u8], t: TypeCode) -> Option<usize>
    requires { Pair cat.now one.now two.now }
    ensures { result ≡ alone_of t (list_read cat.now (one.now ++ two.now)).arguments }
{
    let e = alone_in(cat, one, 0, t, 1)?;
    alone_in(cat, two, one.len(), t, e)
}
