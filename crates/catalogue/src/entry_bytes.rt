// How many types and fields a catalogue has, and the bytes of their entries (R2, R3).
// Every lookup takes any slice: past the end of the block there is nothing, which reads as 0.
ghost use Rattle.std.specs.Prelude.{◌≡◌};
ghost use Rattle.rules.specs.Catalogue.{types, fields, type_byte, field_byte};

use blocks::{byte_at, wide};
use terms::{FieldNumber, TypeCode};

#[tactic(auto, unfolding(rules::specs::Catalogue::types))]
pub fn types(cat: &[u8]) -> u8
    ensures { result ≡ types cat.now }
{
    byte_at(cat, 5)
}

#[tactic(auto, unfolding(rules::specs::Catalogue::fields))]
pub fn fields(cat: &[u8]) -> u8
    ensures { result ≡ fields cat.now }
{
    byte_at(cat, 6)
}

// Byte k of the entry of type t.
#[tactic(auto, unfolding(rules::specs::Catalogue::type_byte))]
pub fn type_byte(cat: &[u8], t: TypeCode, k: u8) -> u8
    ensures { result ≡ type_byte cat.now t k }
{
    byte_at(cat, 8 * wide(t.0) + wide(k))
}

// Byte k of the entry of field f.
#[tactic(auto, unfolding(rules::specs::Catalogue::field_byte))]
pub fn field_byte(cat: &[u8], f: FieldNumber, k: u8) -> u8
    ensures { result ≡ field_byte cat.now f k }
{
    byte_at(cat, 4 + 8 * wide(types(cat)) + 4 * wide(f.0) + wide(k))
}
