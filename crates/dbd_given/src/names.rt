// Whether a list of names fits its catalogue, and whether the names differ where they must (R82).
ghost use Rattle.std.specs.Prelude.{◌≡◌, true, ◌+◌, ◌*◌, ◌≤◌, eqb, length};
ghost use Rattle.forest.specs.Numbers.{range};
ghost use Rattle.rules.specs.Block.{every};
ghost use Rattle.rules.specs.Catalogue.{types, fields};
ghost use Rattle.statements.specs.Words.{in_word};
ghost use Rattle.statements.specs.Draft.{rows, own_names};
ghost use Rattle.statements.specs.Dbd.{name_at, good_name, distinct, good_names, differ};

use blocks::{byte_at, is_marked, wide};
use catalogue::entry_bytes::{fields, types};
use dbd_names::{is_own, name_end, place_of};
use dbd_words::words::{in_word, is_name};

// Whether these bytes are a word, or none.
fn is_word(word: &[u8]) -> bool
    ensures { result ≡ every in_word word.now }
{
    word.iter().all(|&b| in_word(b))
}

fn all_spaces(b: &[u8]) -> bool
    ensures { result ≡ every (λ x. eqb x 0x20) b.now }
{
    b.iter().all(|&x| x == 0x20)
}

fn good_name(name: &[u8]) -> bool
    ensures { result ≡ good_name name.now }
{
    let end = name_end(name);
    name.len() == 8 && all_spaces(&name[end..]) && is_word(&name[..end]) && is_name(&name[..end])
}

// The first n names of the list, that of the data base with them.
fn all_good(names: &[u8], n: usize) -> bool
    requires { 8 + 8 * n ≤ length names.now }
    ensures { result ≡ every (λ i. good_name (name_at names.now i)) (range 0 n) }
{
    (0..n).all(|i| good_name(&names[8 + 8 * i..16 + 8 * i]))
}

#[tactic(auto, unfolding(statements::specs::Dbd::good_names))]
pub(crate) fn good_names(cat: &[u8], names: &[u8]) -> bool
    ensures { result ≡ good_names cat.now names.now }
{
    let top = types(cat);
    let last = fields(cat);
    names.len() == 16 + 8 * wide(top) + 8 * wide(last)
        && is_marked(0x4E, names)
        && byte_at(names, 5) == top
        && byte_at(names, 6) == last
        && byte_at(names, 7) == 0
        && all_good(names, 1 + wide(top) + wide(last))
}

// Whether n names differ: none stands among those behind it.
fn are_distinct(names: &[u8], n: u8) -> bool
    requires { 8 * n ≤ length names.now }
    ensures { result ≡ distinct (rows 8 names.now 0 n) }
{
    for i in 0..n {
        let at = 8 * wide(i);
        let end = at + 8;
        if place_of(&names[end..], n - (i + 1), &names[at..end]) != 0 {
            return false;
        }
    }
    true
}

// The same of the fields of type t among n.
fn own_distinct(fields: &[u8], names: &[u8], n: u8, t: u8) -> bool
    requires { (4 * n ≤ length fields.now) × (8 * n ≤ length names.now) }
    ensures { result ≡ distinct (own_names t (rows 4 fields.now 0 n) (rows 8 names.now 0 n)) }
{
    for i in 0..n {
        let entry = 4 * wide(i);
        let next = entry + 4;
        let at = 8 * wide(i);
        let end = at + 8;
        let name = &names[at..end];
        if fields[entry] == t && is_own(&fields[next..], &names[end..], n - (i + 1), t, name) {
            return false;
        }
    }
    true
}

pub(crate) fn differ(cat: &[u8], names: &[u8]) -> bool
    requires block { length cat.now ≡ 8 + 8 * types cat.now + 4 * fields cat.now }
    requires list { length names.now ≡ 16 + 8 * types cat.now + 8 * fields cat.now }
    ensures { result ≡ differ cat.now names.now }
{
    let top = types(cat);
    let last = fields(cat);
    let entries = &cat[8 + 8 * wide(top)..];
    let own = &names[16 + 8 * wide(top)..];
    are_distinct(&names[16..], top) && (1..=top).all(|k| own_distinct(entries, own, last, k))
}
