// Whether fields stand by their types, and every key is a field too (R81, R82).
ghost use Rattle.std.specs.Prelude.{◌≡◌};
ghost use Rattle.statements.specs.Dbd.{is_key_of, key_field, ascending, keys_listed};
ghost use Rattle.dbd_given.specs.Numbered.{numbered};

use catalogue::entries::{key_kind, key_length, key_start};
use catalogue::entry_bytes::{fields, types};
use catalogue::fields::{field_length, field_start, field_type};
use terms::{FieldNumber, TypeCode};

pub(crate) fn ascending(cat: &[u8]) -> bool
    ensures { result ≡ ascending cat.now }
{
    (1..fields(cat)).all(|f| {
        let t = field_type(cat, FieldNumber(f));
        let u = field_type(cat, FieldNumber(f + 1));
        t.0 <= u.0
    })
}

#[tactic(auto, unfolding(statements::specs::Dbd::is_key_of))]
fn is_key_of(cat: &[u8], t: TypeCode, f: FieldNumber) -> bool
    ensures { result ≡ is_key_of cat.now t.0 f.0 }
{
    field_start(cat, f) == key_start(cat, t) && field_length(cat, f) == key_length(cat, t)
}

// The first field of type t that has the key's start and length.
pub fn key_field(cat: &[u8], t: TypeCode) -> Option<FieldNumber>
    ensures { result ≡ numbered (key_field cat.now t.0) }
{
    (1..=fields(cat))
        .map(FieldNumber)
        .find(|&f| field_type(cat, f).0 == t.0 && is_key_of(cat, t, f))
}

pub(crate) fn keys_listed(cat: &[u8]) -> bool
    ensures { result ≡ keys_listed cat.now }
{
    (1..=types(cat)).all(|k| {
        let t = TypeCode(k);
        key_kind(cat, t) == 0 || key_field(cat, t).is_some()
    })
}
