// What the catalogue says of a field (R6, R86), for any slice.
ghost use Rattle.std.specs.Prelude.{◌≡◌, true, ◌+◌, ◌*◌, ◌≤◌, length};
ghost use Rattle.rules.specs.Catalogue.{types, fields, field_type, field_start, field_length, field_value, good_catalogue};

use crate::entry_bytes::field_byte;
use blocks::wide;
use terms::{FieldNumber, TypeCode};

// R3: where the entry of a field begins, in a good catalogue: its bytes may be read from there as they stand.
pub fn entry_of(cat: &[u8], f: FieldNumber) -> usize
    requires { (good_catalogue cat.now ≡ true) × (1 ≤ f.0) × (f.0 ≤ fields cat.now) }
    ensures { (result ≡ 4 + 8 * types cat.now + 4 * f.0) × (result + 4 ≤ length cat.now) }
{
    4 + 8 * wide(cat[5]) + 4 * wide(f.0)
}

#[tactic(auto, unfolding(rules::specs::Catalogue::field_type))]
pub fn field_type(cat: &[u8], f: FieldNumber) -> TypeCode
    ensures { result ≡ field_type cat.now f }
{
    TypeCode(field_byte(cat, f, 0))
}

#[tactic(auto, unfolding(rules::specs::Catalogue::field_start))]
pub fn field_start(cat: &[u8], f: FieldNumber) -> u8
    ensures { result ≡ field_start cat.now f }
{
    field_byte(cat, f, 1)
}

#[tactic(auto, unfolding(rules::specs::Catalogue::field_length))]
pub fn field_length(cat: &[u8], f: FieldNumber) -> u8
    ensures { result ≡ field_length cat.now f }
{
    field_byte(cat, f, 2)
}

#[tactic(auto, unfolding(rules::specs::Catalogue::field_value))]
pub fn field_value(cat: &[u8], f: FieldNumber) -> u8
    ensures { result ≡ field_value cat.now f }
{
    field_byte(cat, f, 3)
}
