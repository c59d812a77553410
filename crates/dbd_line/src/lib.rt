// The statement that a line is (R76): each form is tried on the whole line.
#![tactic(auto)]

pub mod forms;

use dbd_words::Span;

// A line: of blanks alone, or a statement by the places of its words and by its numbers, where 255 stands for all that are greater.
// The kind of a field's key is the number that the statement has (R77), which a catalogue's entry holds: 0 none, 1 U, 2 M.
#[derive(Clone, Copy)]
pub enum Line {
    Empty,
    IsDbd(Span),
    IsSegm(Span, Span, u8),
    IsField(Span, u8, u8, u8),
}
