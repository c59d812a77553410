// Bytes of a line, and the words that they make.
ghost use Rattle.std.specs.Prelude.{◌≡◌, true, ◌+◌, ◌-◌, ◌*◌, ◌≤◌, length};
ghost use Rattle.rules.specs.Block.{every};
ghost use Rattle.statements.specs.Words.{is_digit, is_letter, in_word, is_blank, is_name, is_number, value};
ghost use Rattle.dbd_words.specs.Row.{PastBlanks, WordEnd, NextWord};
ghost use Rattle.dbd_words.specs.Capped.{capped};

use crate::Span;

#[tactic(auto, unfolding(statements::specs::Words::is_digit))]
pub fn is_digit(b: u8) -> bool
    ensures { result ≡ is_digit b }
{
    b.is_ascii_digit()
}

#[tactic(auto, unfolding(statements::specs::Words::is_letter))]
pub fn is_letter(b: u8) -> bool
    ensures { result ≡ is_letter b }
{
    b.is_ascii_alphabetic()
}

#[tactic(auto, unfolding(statements::specs::Words::in_word, statements::specs::Words::is_letter, statements::specs::Words::is_digit))]
pub fn in_word(b: u8) -> bool
    ensures { result ≡ in_word b }
{
    b.is_ascii_alphanumeric()
}

#[tactic(auto, unfolding(statements::specs::Words::is_blank))]
fn is_blank(b: u8) -> bool
    ensures { result ≡ is_blank b }
{
    matches!(b, b' ' | b'\t' | b'\r')
}

// The first place from `at` on that holds no blank, or the line's end.
pub fn past_blanks(line: &[u8], at: usize) -> usize
    requires { at ≤ length line.now }
    ensures { PastBlanks line.now at result }
{
    let rest = &line[at..];
    at + rest
        .iter()
        .position(|&b| !is_blank(b))
        .unwrap_or(rest.len())
}

// Where the letters and digits from `at` on end.
fn word_end(line: &[u8], at: usize) -> usize
    requires { at ≤ length line.now }
    ensures { WordEnd line.now at result }
{
    let rest = &line[at..];
    at + rest.iter().position(|&b| !in_word(b)).unwrap_or(rest.len())
}

// The word that comes next; an empty one where a sign does, or nothing, as the clause NextWord has it.
pub fn next_word(line: &[u8], at: usize) -> Span
    requires { at ≤ length line.now }
    ensures { NextWord line.now at result }
{
    let from = past_blanks(line, at);
    let to = word_end(line, from);
    Span { from, to }
}

// R75: of a word.
#[tactic(auto, using(crate::proofs::Names::name_none, crate::proofs::Names::name_long, crate::proofs::Names::name_is))]
pub fn is_name(word: &[u8]) -> bool
    ensures { every in_word word.now ≡ true → result ≡ is_name word.now }
{
    !word.is_empty() && word.len() <= 8 && is_letter(word[0])
}

// R75: of any bytes.
pub fn is_number(word: &[u8]) -> bool
    ensures { result ≡ is_number word.now }
{
    !word.is_empty() && word.iter().all(|&b| is_digit(b))
}

// One digit more behind a number; 255 stands for all that are greater.
#[tactic(auto, using(crate::proofs::Letters::digit_low, crate::proofs::Digits::capped_least))]
fn next_number(n: u8, digit: u8) -> u8
    requires { is_digit digit ≡ true }
    ensures { result ≡ capped (10 * n + (digit - 0x30)) }
{
    n.saturating_mul(10).saturating_add(digit - b'0')
}

// A number's value; 255 stands for all that are greater.
pub fn number(word: &[u8]) -> u8
    requires { is_number word.now ≡ true }
    ensures { result ≡ capped (value word.now) }
{
    let mut n = 0;
    for &digit in word {
        n = next_number(n, digit);
    }
    n
}
