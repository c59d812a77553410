// Names of 8 bytes (R79), one behind another.
#![tactic(auto)]

ghost use Rattle.std.specs.Prelude.{◌≡◌, ◌+◌, ◌*◌, ◌≤◌, length};
ghost use Rattle.std.proofs.lemmas.List.Edits.{sets};
ghost use Rattle.rules.specs.Block.{part};
ghost use Rattle.statements.specs.Words.{filled, trimmed};
ghost use Rattle.statements.specs.Draft.{rows, place_of, has, own_names};

use blocks::slices::are_same;
use blocks::wide;

// Bytes that go over those from a place on.
pub fn write(block: &mut [u8], at: usize, from: &[u8])
    requires { at + length from.now ≤ length block.old }
    ensures { block.new ≡ sets block.old at from.now }
{
    block[at..at + from.len()].copy_from_slice(from);
}

// R79: a word with spaces behind it.
pub fn filled(word: &[u8]) -> [u8; 8]
    requires { length word.now ≤ 8 }
    ensures { result ≡ filled word.now }
{
    let mut name = [b' '; 8];
    name[..word.len()].copy_from_slice(word);
    name
}

// Where the spaces behind a name begin: how long its word is.
pub fn name_end(name: &[u8]) -> usize
    ensures { (result ≤ length name.now) × (part name.now 0 result ≡ trimmed name.now) }
{
    name.iter().position(|&b| b == b' ').unwrap_or(name.len())
}

// Where a name stands among the first n, from 1; 0 where it does not: the rules' place_of is that number, and the crates above cite it.
pub fn place_of(names: &[u8], n: u8, name: &[u8]) -> u8
    requires { 8 * n ≤ length names.now }
    ensures { result ≡ place_of name.now (rows 8 names.now 0 n) }
{
    for i in 0..n {
        let k = wide(i);
        if are_same(name, &names[8 * k..8 * k + 8]) {
            return i + 1;
        }
    }
    0
}

// Whether a field of type t has this name, among the first n: each has an entry of 4 bytes and a name.
pub fn is_own(fields: &[u8], names: &[u8], n: u8, t: u8, name: &[u8]) -> bool
    requires { (4 * n ≤ length fields.now) × (8 * n ≤ length names.now) }
    ensures { result ≡ has name.now (own_names t (rows 4 fields.now 0 n) (rows 8 names.now 0 n)) }
{
    for i in 0..n {
        let k = wide(i);
        if fields[4 * k] == t && are_same(name, &names[8 * k..8 * k + 8]) {
            return true;
        }
    }
    false
}
