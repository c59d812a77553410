// Words and signs of a line (R74, R75), and what a form asks of them.
#![tactic(auto)]

pub mod slots;
pub mod words;

// Where a word stands in its line: from its first byte to the one behind its last. An empty one stands for none.
#[derive(Clone, Copy)]
pub struct Span {
    pub from: usize,
    pub to: usize,
}

// What a form leaves open: a name, a number, a name or the word 0, one of two letters.
#[derive(Clone, Copy)]
pub enum Asks {
    AName,
    ANumber,
    AParent,
    OneOf(u8, u8),
}
