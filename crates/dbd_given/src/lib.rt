// Whether the reader could have given a catalogue and a list of names (R82).
#![tactic(auto)]

pub mod keys;
mod names;
mod plain;

ghost use Rattle.std.specs.Prelude.{◌≡◌};
ghost use Rattle.statements.specs.Dbd.{could_give};

use catalogue_check::check::is_good;

#[tactic(auto, unfolding(statements::specs::Dbd::could_give))]
pub fn could_give(cat: &[u8], names: &[u8]) -> bool
    ensures { result ≡ could_give cat.now names.now }
{
    is_good(cat)
        && plain::is_plain(cat)
        && names::good_names(cat, names)
        && names::differ(cat, names)
        && keys::ascending(cat)
        && keys::keys_listed(cat)
}
