// The check of one entry of a catalogue, of a type and of a field. Like the lookups, all but `good_type` take any slice and any number.
ghost use Rattle.std.specs.Prelude.{◌≡◌, true, ◌&&◌, ◌+◌, ◌*◌, leb};
ghost use Rattle.rules.specs.Block.{part, zeros};
ghost use Rattle.rules.specs.Catalogue.{length_of, good_span, good_value, good_key, good_parent, good_type, good_field};
ghost use Rattle.catalogue_check.specs.Levelled.{Ready, Next};

use blocks::wide;
use catalogue::entries::{data_length, key_kind, key_length, key_start, key_value, parent};
use catalogue::entry_bytes::type_byte;
use catalogue::fields::{field_length, field_start, field_type, field_value};
use catalogue::lineage::{add_level, is_above};
use catalogue::type_range::is_type;
use terms::{FieldNumber, TypeCode};

// R5: a span within the data. The sum is taken in wide numbers, where it cannot wrap.
pub fn good_span(start: u8, long: u8, most: u8) -> bool
    ensures { result ≡ good_span start long most }
{
    start != 0 && long != 0 && wide(start) + wide(long) - 1 <= wide(most)
}

// R86: a value type, of a key or field of this length.
fn good_value(w: u8, long: u8) -> bool
    ensures { result ≡ good_value w long }
{
    match w {
        0 => true,
        1 => long <= 16,
        _ => false,
    }
}

// R4, R5, R86: the kind of key, its span and its value type, or zeros where the type has none.
#[tactic(auto, unfolding(rules::specs::Catalogue::good_key))]
fn good_key(cat: &[u8], t: TypeCode) -> bool
    ensures { result ≡ good_key cat.now t }
{
    let start = key_start(cat, t);
    let long = key_length(cat, t);
    let value = key_value(cat, t);
    match key_kind(cat, t) {
        0 => start == 0 && long == 0 && value == 0,
        1 | 2 => good_span(start, long, data_length(cat, t)) && good_value(value, long),
        _ => false,
    }
}

// R7: whose child the type may be.
#[tactic(auto, using(crate::proofs::EntryTests::parent_none), unfolding(rules::specs::Catalogue::good_parent))]
fn good_parent(cat: &[u8], t: TypeCode) -> bool
    ensures { result ≡ good_parent cat.now t.0 }
{
    let above = parent(cat, t);
    match t.0 {
        0 => false,
        1 => above.0 == 0,
        k => is_above(cat, above, TypeCode(k - 1)),
    }
}

// R4: how long the data may be.
fn good_length(cat: &[u8], t: TypeCode) -> bool
    ensures { result ≡ (leb 1 (length_of cat.now t) && leb (length_of cat.now t) 120) }
{
    (1..=120).contains(&data_length(cat, t))
}

// R4: the two bytes of a type's entry before its value type.
#[tactic(auto, using(crate::proofs::EntryTests::two_zeros))]
fn has_zeros(cat: &[u8], t: TypeCode) -> bool
    ensures { result ≡ zeros (part cat.now (8 * t.0 + 5) 2) }
{
    type_byte(cat, t, 5) == 0 && type_byte(cat, t, 6) == 0
}

// R4, R7: what one type's entry says by itself.
fn good_entry(cat: &[u8], t: TypeCode) -> bool
    ensures { result ≡ (good_parent cat.now t.0 && leb 1 (length_of cat.now t) && leb (length_of cat.now t) 120 && good_key cat.now t
        && zeros (part cat.now (8 * t.0 + 5) 2)) }
{
    good_parent(cat, t) && good_length(cat, t) && good_key(cat, t) && has_zeros(cat, t)
}

// The types before t have been found good: the row holds their levels, and gains that of t if it is good too.
pub fn good_type(cat: &[u8], levels: &mut [u8; 33], t: TypeCode) -> bool
    requires { Next cat.now levels.old t.0 }
    ensures { (result ≡ good_type cat.now t.0) × (result ≡ true → Ready cat.now levels.new t.0) }
{
    if !good_entry(cat, t) {
        return false;
    }
    add_level(cat, levels, t);
    levels[wide(t.0)] <= 15
}

// R6, R86: a field's type, its span in the data of that type, and its value type.
#[tactic(auto, unfolding(rules::specs::Catalogue::good_field))]
pub fn good_field(cat: &[u8], f: FieldNumber) -> bool
    ensures { result ≡ good_field cat.now f.0 }
{
    let t = field_type(cat, f);
    let start = field_start(cat, f);
    let long = field_length(cat, f);
    is_type(cat, t)
        && (good_span(start, long, data_length(cat, t)) && good_value(field_value(cat, f), long))
}
