// Whether a catalogue says no more than statements can say: version 1, and no value type (R82).
ghost use Rattle.std.specs.Prelude.{◌≡◌, ◌+◌, ◌*◌, eqb};
ghost use Rattle.terms.specs.Names.{field};
ghost use Rattle.forest.specs.Numbers.{range};
ghost use Rattle.rules.specs.Block.{part, every, zeros};
ghost use Rattle.rules.specs.Catalogue.{types, fields, field_byte};
ghost use Rattle.statements.specs.Dbd.{is_plain};

use blocks::word_at;
use catalogue::entry_bytes::{field_byte, fields, type_byte, types};
use terms::{FieldNumber, TypeCode};

// The last three bytes of a type's entry.
#[tactic(auto, using(crate::proofs::Endings::three_zeros))]
fn ends_in_zeros(cat: &[u8], t: TypeCode) -> bool
    ensures { result ≡ zeros (part cat.now (8 * t.0 + 5) 3) }
{
    type_byte(cat, t, 5) == 0 && type_byte(cat, t, 6) == 0 && type_byte(cat, t, 7) == 0
}

fn plain_types(cat: &[u8]) -> bool
    ensures { result ≡ every (λ k. zeros (part cat.now (8 * k + 5) 3)) (range 1 (types cat.now)) }
{
    (1..=types(cat)).all(|k| ends_in_zeros(cat, TypeCode(k)))
}

fn plain_fields(cat: &[u8]) -> bool
    ensures { result ≡ every (λ f. eqb (field_byte cat.now (field f) 3) 0) (range 1 (fields cat.now)) }
{
    (1..=fields(cat)).all(|f| field_byte(cat, FieldNumber(f), 3) == 0)
}

#[tactic(auto, unfolding(statements::specs::Dbd::is_plain))]
pub(crate) fn is_plain(cat: &[u8]) -> bool
    ensures { result ≡ is_plain cat.now }
{
    word_at(cat, 3) == 1 && plain_types(cat) && plain_fields(cat)
}
