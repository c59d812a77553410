// How the types lie one beneath another: their levels by one pass over the catalogue, whether one lies beneath another by climbing from a type to
// its parent, at most as many times as its code says.
ghost use Rattle.std.specs.Prelude.{◌≡◌, true, ◌-◌, ◌≤◌, ◌<◌};
ghost use Rattle.forest.specs.Numbers.{is_in};
ghost use Rattle.rules.specs.Catalogue.{types, lineage, level, is_type, type_beneath, good_catalogue};
ghost use Rattle.catalogue.specs.Levels.{Ordered, Levels};

use crate::entries::parent;
use crate::entry_bytes::types;
use blocks::wide;
use terms::TypeCode;

// One type more in a row of levels (R8): the parent's level is there already.
pub fn add_level(cat: &[u8], row: &mut [u8; 33], t: TypeCode)
    requires { Ordered cat.now t.0 × (0 < t.0) × Levels cat.now row.old (t.0 - 1) }
    ensures { Levels cat.now row.new t.0 }
{
    let above = wide(cat[8 * wide(t.0)]);
    row[wide(t.0)] = row[above] + 1;
}

// The levels of the types up to t, in one pass: no type is climbed from.
pub fn levels_to(cat: &[u8], row: &mut [u8; 33], t: TypeCode)
    requires { (good_catalogue cat.now ≡ true) × (t.0 ≤ types cat.now) × Levels cat.now row.old 0 }
    ensures { Levels cat.now row.new t.0 }
{
    for k in 1..=t.0 {
        add_level(cat, row, TypeCode(k));
    }
}

// The levels of all types.
pub fn levels(cat: &[u8], row: &mut [u8; 33])
    requires { (good_catalogue cat.now ≡ true) × Levels cat.now row.old 0 }
    ensures { Levels cat.now row.new (types cat.now) }
{
    levels_to(cat, row, TypeCode(types(cat)));
}

// The level of a type, by the row of all of them.
pub fn level_by(row: &[u8; 33], cat: &[u8], t: TypeCode) -> u8
    requires { (good_catalogue cat.now ≡ true) × (is_type cat.now t ≡ true) × Levels cat.now row.now (types cat.now) }
    ensures { result ≡ level cat.now t }
{
    row[wide(t.0)]
}

// The level of one type alone: as many types as there are from it up to the root's.
pub fn level(cat: &[u8], t: TypeCode) -> u8
    requires { (good_catalogue cat.now ≡ true) × (is_type cat.now t ≡ true) }
    ensures { result ≡ level cat.now t }
{
    let mut u = t.0;
    let mut l: u8 = 0;
    while 0 < u {
        u = cat[8 * wide(u)];
        l += 1;
    }
    l
}

// Whether x is t or a type above it.
pub fn is_above(cat: &[u8], x: TypeCode, t: TypeCode) -> bool
    ensures { result ≡ is_in x.0 (lineage cat.now t) }
{
    let mut u = t;
    for _ in 0..t.0 {
        if u.0 == 0 {
            return false;
        }
        if x.0 == u.0 {
            return true;
        }
        u = parent(cat, u);
    }
    false
}

// Whether type t lies beneath type u, and is not u.
#[tactic(auto, unfolding(rules::specs::Catalogue::type_beneath))]
pub fn is_beneath(cat: &[u8], t: TypeCode, u: TypeCode) -> bool
    ensures { result ≡ type_beneath cat.now t u }
{
    is_above(cat, u, parent(cat, t))
}
