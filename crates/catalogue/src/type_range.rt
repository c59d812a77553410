// The types from 1 to T: which codes they have, and the largest L among them.
ghost use Rattle.std.specs.Prelude.{◌≡◌};
ghost use Rattle.rules.specs.Catalogue.{types, is_type, largest};

use crate::entries::data_length;
use crate::entry_bytes::types;
use terms::TypeCode;

// R7, R26: whether the catalogue has such a type.
#[tactic(auto, unfolding(rules::specs::Catalogue::is_type))]
pub fn is_type(cat: &[u8], t: TypeCode) -> bool
    ensures { result ≡ is_type cat.now t }
{
    t.0 != 0 && t.0 <= types(cat)
}

// The largest L of all types.
#[tactic(auto, using(crate::proofs::Largest::largest_next, crate::proofs::Largest::largest_none))]
pub fn largest(cat: &[u8]) -> u8
    ensures { result ≡ largest cat.now (types cat.now) }
{
    let mut most: u8 = 0;
    for k in 1..=types(cat) {
        most = most.max(data_length(cat, TypeCode(k)));
    }
    most
}
