// What a form asks of the next word or sign: the place behind it, or none where something else stands there.
ghost use Rattle.std.specs.Prelude.{◌≡◌, true, false, [], ◌∷◌, ◌<◌, ◌≤◌, length};
ghost use Rattle.rules.specs.Block.{every};
ghost use Rattle.statements.specs.Words.{in_word, is_blank};
ghost use Rattle.statements.specs.Statement.{only, mark, suits, comma, equals};
ghost use Rattle.dbd_words.specs.Row.{asked, Reached, Held, Ends};

use crate::words::{is_name, is_number, next_word, past_blanks};
use crate::{Asks, Span};
use blocks::slices::are_same;

// This word.
pub fn keyword(line: &[u8], at: usize, word: &[u8]) -> Option<usize>
    requires { (at ≤ length line.now) × (0 < length word.now) }
    ensures { Reached line.now at (only word.now ∷ []) result }
{
    let Span { from, to } = next_word(line, at);
    are_same(word, &line[from..to]).then_some(to)
}

// This sign.
pub fn sign(line: &[u8], at: usize, s: u8) -> Option<usize>
    requires { (at ≤ length line.now) × (in_word s ≡ false) × (is_blank s ≡ false) }
    ensures { Reached line.now at (mark s ∷ []) result }
{
    let i = past_blanks(line, at);
    if i < line.len() && line[i] == s {
        Some(i + 1)
    } else {
        None
    }
}

// This word and an equals sign.
#[tactic(auto, using(crate::proofs::Letters::signs))]
pub fn assigned(line: &[u8], at: usize, word: &[u8]) -> Option<usize>
    requires { (at ≤ length line.now) × (0 < length word.now) }
    ensures { Reached line.now at (only word.now ∷ mark equals ∷ []) result }
{
    let behind = keyword(line, at, word)?;
    sign(line, behind, b'=')
}

// The same behind a comma.
#[tactic(auto, using(crate::proofs::Letters::signs))]
pub fn operand(line: &[u8], at: usize, word: &[u8]) -> Option<usize>
    requires { (at ≤ length line.now) × (0 < length word.now) }
    ensures { Reached line.now at (mark comma ∷ only word.now ∷ mark equals ∷ []) result }
{
    let behind = sign(line, at, b',')?;
    assigned(line, behind, word)
}

// Whether a word is what the slot asks for.
#[tactic(auto, unfolding(statements::specs::Statement::suits, statements::specs::Statement::no_parent, statements::specs::Text::bytes_of))]
fn is_suited(slot: Asks, word: &[u8]) -> bool
    requires { every in_word word.now ≡ true }
    ensures { result ≡ suits (asked slot) word.now }
{
    match slot {
        Asks::AName => is_name(word),
        Asks::ANumber => is_number(word),
        Asks::AParent => are_same(b"0", word) || is_name(word),
        Asks::OneOf(a, b) => are_same(&[a], word) || are_same(&[b], word),
    }
}

// The word that fits the slot.
pub fn held(line: &[u8], at: usize, slot: Asks) -> Option<Span>
    requires { at ≤ length line.now }
    ensures { Held line.now at [] (asked slot) result }
{
    let w = next_word(line, at);
    is_suited(slot, &line[w.from..w.to]).then_some(w)
}

// Whether nothing more stands there.
#[tactic(auto, using(crate::proofs::Behind::at_end))]
pub fn ends(line: &[u8], at: usize) -> bool
    requires { at ≤ length line.now }
    ensures { Ends line.now at result }
{
    past_blanks(line, at) == line.len()
}
