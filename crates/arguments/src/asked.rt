// What two lists ask as one list: no joined list is made. Of each type there is an entry: 0, it is not the last type nor above it; 1, the lists leave it
// out; 2, they name it and test nothing; else where the value of its test begins, counted on from the first list into the second. A call that has one
// list has an empty one behind it.
ghost use Rattle.std.specs.Prelude.{◌≡◌, true, ◌++◌, ◌+◌, ◌<◌, ◌≤◌, length, replicate};
ghost use Rattle.rules.specs.Arguments.{list_read};
ghost use Rattle.rules.specs.Block.{byte};
ghost use Rattle.rules.specs.Catalogue.{types, good_catalogue};
ghost use Rattle.arguments.specs.Sound.{SoundList};
ghost use Rattle.arguments.specs.Asked.{Pair, Row, entry_of, set_once, marked, above_entry, InLists};

use crate::read::argument_at;
use blocks::wide;
use catalogue::entries::parent;
use terms::{Qualification, TypeCode};

// The entry of an argument in a list that begins `base` bytes behind the front of the first.
pub(crate) fn entry_of(base: usize, q: Qualification) -> usize
    requires { InLists base q }
    ensures { result ≡ marked base q }
{
    match q {
        None => 2,
        Some(test) => base + test.value,
    }
}

// 1 for type t and each type above it, which are the levels of the completed list.
fn mark_above(cat: &[u8], t: TypeCode, row: &mut [u16; 33])
    requires { (good_catalogue cat.now ≡ true) × (t.0 ≤ types cat.now) × (row.old ≡ replicate 33 0) }
    ensures { Row row.new (above_entry cat.now t) }
{
    let mut u = t.0;
    while 0 < u {
        row[wide(u)] = 1;
        u = parent(cat, TypeCode(u)).0;
    }
}

// The arguments of one list: each sets its type's entry, where that is a level and still left out.
fn mark_named(cat: &[u8], list: &[u8], base: usize, row: &mut [u16; 33])
    requires { SoundList cat.now list.now × (base + length list.now < 65536) × (length row.old ≡ 33) }
    ensures { Row row.new (λ u. set_once base (list_read cat.now list.now).arguments u (byte row.old u)) }
{
    let mut at = 0;
    while at < list.len() {
        let a = argument_at(cat, list, at);
        let q = a.qualification;
        let u = wide(a.code.0);
        if row[u] == 1 {
            row[u] = entry_of(base, q) as u16;
        }
        at = a.next;
    }
}

// The row of entries, one for each type code, of the lists completed down to type t.
pub fn ask(cat: &[u8], one: &[u8], two: &[u8], t: TypeCode, row: &mut [u16; 33])
    requires { Pair cat.now one.now two.now × (t.0 ≤ types cat.now) × (row.old ≡ replicate 33 0) }
    ensures { Row row.new (entry_of cat.now (one.now ++ two.now) t) }
{
    mark_above(cat, t, row);
    mark_named(cat, one, 0, row);
    mark_named(cat, two, one.len(), row);
}

// An entry as a number of bytes. A function of its own, since a cast of an element would ask that the element fits.
fn offset(e: u16) -> usize
    ensures { result ≡ e }
{
    e as usize
}

// The entry of a type, by the row.
pub fn asked_of(row: &[u16; 33], u: TypeCode) -> usize
    requires { (length row.now ≡ 33) × (u.0 < 33) }
    ensures { result ≡ byte row.now u.0 }
{
    offset(row[wide(u.0)])
}
