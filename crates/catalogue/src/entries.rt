// What the catalogue says of a type (R4, R86), for any slice.
ghost use Rattle.std.specs.Prelude.{◌≡◌, true, ◌+◌, ◌*◌, ◌≤◌, length};
ghost use Rattle.rules.specs.Catalogue.{parent_of, length_of, key_kind, key_start, key_length, key_value, is_type, good_catalogue};

use crate::entry_bytes::type_byte;
use blocks::wide;
use terms::TypeCode;

// R3: where the entry of a type begins, in a good catalogue: its bytes may be read from there as they stand.
pub fn entry_of(cat: &[u8], t: TypeCode) -> usize
    requires { (good_catalogue cat.now ≡ true) × (is_type cat.now t ≡ true) }
    ensures { (result ≡ 8 * t.0) × (result + 8 ≤ length cat.now) }
{
    8 * wide(t.0)
}

#[tactic(auto, unfolding(rules::specs::Catalogue::parent_of))]
pub fn parent(cat: &[u8], t: TypeCode) -> TypeCode
    ensures { result ≡ parent_of cat.now t }
{
    TypeCode(type_byte(cat, t, 0))
}

#[tactic(auto, unfolding(rules::specs::Catalogue::length_of))]
pub fn data_length(cat: &[u8], t: TypeCode) -> u8
    ensures { result ≡ length_of cat.now t }
{
    type_byte(cat, t, 1)
}

#[tactic(auto, unfolding(rules::specs::Catalogue::key_kind))]
pub fn key_kind(cat: &[u8], t: TypeCode) -> u8
    ensures { result ≡ key_kind cat.now t }
{
    type_byte(cat, t, 2)
}

#[tactic(auto, unfolding(rules::specs::Catalogue::key_start))]
pub fn key_start(cat: &[u8], t: TypeCode) -> u8
    ensures { result ≡ key_start cat.now t }
{
    type_byte(cat, t, 3)
}

#[tactic(auto, unfolding(rules::specs::Catalogue::key_length))]
pub fn key_length(cat: &[u8], t: TypeCode) -> u8
    ensures { result ≡ key_length cat.now t }
{
    type_byte(cat, t, 4)
}

#[tactic(auto, unfolding(rules::specs::Catalogue::key_value))]
pub fn key_value(cat: &[u8], t: TypeCode) -> u8
    ensures { result ≡ key_value cat.now t }
{
    type_byte(cat, t, 7)
}
