// The four forms of a statement (R76), each tried on the whole line.
ghost use Rattle.std.specs.Prelude.{◌≡◌, [], ◌∷◌, ◌<◌, ◌≤◌, length};
ghost use Rattle.statements.specs.Words.{tokens};
ghost use Rattle.statements.specs.Statement.{only, mark, name, comma, equals, word_name};
ghost use Rattle.statements.specs.Statement.{dbd_form, segm_form, field_form, key_form, dbd_of, segm_of, field_of, key_of};
ghost use Rattle.dbd_words.specs.Row.{asked, Reached, Held};
ghost use Rattle.dbd_line.specs.Meant.{Spanned, Tells, Means};

use crate::Line;
use dbd_words::slots::{assigned, ends, held, keyword, operand, sign};
use dbd_words::words::number;
use dbd_words::{Asks, Span};

// How long a field is and where it starts.
#[derive(Clone, Copy)]
struct Extent {
    long: u8,
    start: u8,
}

// The word that a form begins with, and NAME=.
fn headed(line: &[u8], word: &[u8]) -> Option<usize>
    requires { 0 < length word.now }
    ensures { Reached line.now 0 (only word.now ∷ only word_name ∷ mark equals ∷ []) result }
{
    let at = keyword(line, 0, word)?;
    assigned(line, at, b"NAME")
}

// The same, and the name behind it.
fn named(line: &[u8], word: &[u8]) -> Option<Span>
    requires { 0 < length word.now }
    ensures { Held line.now 0 (only word.now ∷ only word_name ∷ mark equals ∷ []) name result }
{
    let at = headed(line, word)?;
    held(line, at, Asks::AName)
}

// A comma, this word, an equals sign, and the word behind it.
fn given(line: &[u8], at: usize, word: &[u8], slot: Asks) -> Option<Span>
    requires { (at ≤ length line.now) × (0 < length word.now) }
    ensures { Held line.now at (mark comma ∷ only word.now ∷ mark equals ∷ []) (asked slot) result }
{
    let at = operand(line, at, word)?;
    held(line, at, slot)
}

fn dbd(line: &[u8]) -> Option<Line>
    ensures { Tells dbd_form (dbd_of (tokens line.now)) line.now result }
{
    let name = named(line, b"DBD")?;
    ends(line, name.to).then_some(Line::IsDbd(name))
}

fn segm(line: &[u8]) -> Option<Line>
    ensures { Tells segm_form (segm_of (tokens line.now)) line.now result }
{
    let name = named(line, b"SEGM")?;
    let parent = given(line, name.to, b"PARENT", Asks::AParent)?;
    let long = given(line, parent.to, b"BYTES", Asks::ANumber)?;
    if !ends(line, long.to) {
        return None;
    }
    let bytes = number(&line[long.from..long.to]);
    Some(Line::IsSegm(name, parent, bytes))
}

// BYTES, START and TYPE, to the line's end.
fn rest(line: &[u8], at: usize) -> Option<Extent>
    requires { at ≤ length line.now }
    ensures { Spanned line.now at result }
{
    let bytes = given(line, at, b"BYTES", Asks::ANumber)?;
    let first = given(line, bytes.to, b"START", Asks::ANumber)?;
    let letter = given(line, first.to, b"TYPE", Asks::OneOf(b'C', b'X'))?;
    if !ends(line, letter.to) {
        return None;
    }
    let long = number(&line[bytes.from..bytes.to]);
    let start = number(&line[first.from..first.to]);
    Some(Extent { long, start })
}

fn field(line: &[u8]) -> Option<Line>
    ensures { Tells field_form (field_of (tokens line.now)) line.now result }
{
    let name = named(line, b"FIELD")?;
    let e = rest(line, name.to)?;
    Some(Line::IsField(name, 0, e.long, e.start))
}

// With SEQ: U is kind 1, M kind 2.
#[tactic(auto, using(dbd_words::proofs::Letters::signs))]
fn key(line: &[u8]) -> Option<Line>
    ensures { Tells key_form (key_of (tokens line.now)) line.now result }
{
    let at = headed(line, b"FIELD")?;
    let at = sign(line, at, b'(')?;
    let name = held(line, at, Asks::AName)?;
    let at = sign(line, name.to, b',')?;
    let at = keyword(line, at, b"SEQ")?;
    let at = sign(line, at, b',')?;
    let letter = held(line, at, Asks::OneOf(b'U', b'M'))?;
    let at = sign(line, letter.to, b')')?;
    let e = rest(line, at)?;
    let kind = if line[letter.from] == b'U' { 1 } else { 2 };
    Some(Line::IsField(name, kind, e.long, e.start))
}

// What a line says; none, if it is no statement.
pub fn line_of(line: &[u8]) -> Option<Line>
    ensures { Means line.now result }
{
    if ends(line, 0) {
        return Some(Line::Empty);
    }
    dbd(line)
        .or_else(|| segm(line))
        .or_else(|| field(line))
        .or_else(|| key(line))
}
