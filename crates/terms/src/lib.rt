// The words of the rules as types. What the calls make of a position stands beside it.
#![tactic(auto)]

pub mod operators;
pub mod positions;
pub mod statuses;

// R9: three kinds of number, so that no lookup takes one for another.
#[derive(Clone, Copy, PartialEq, Eq)]
pub struct TypeCode(pub u8);

#[derive(Clone, Copy, PartialEq, Eq)]
pub struct FieldNumber(pub u8);

#[derive(Clone, Copy, PartialEq, Eq, PartialOrd, Ord)]
pub struct CellNumber(pub usize);

// R18: on a cell, or in the gap before one.
#[derive(Clone, Copy)]
pub enum Place {
    On(CellNumber),
    Before(CellNumber),
}

// R20: none, or the cell of a segment.
pub type Parentage = Option<CellNumber>;

#[derive(Clone, Copy)]
pub struct Position {
    pub place: Place,
    pub parentage: Parentage,
    pub hold: bool,
}

// R25, in the order of their numbers.
#[derive(Clone, Copy)]
pub enum Operator {
    Eq,
    Ne,
    Lt,
    Le,
    Gt,
    Ge,
}

// R24: what an argument tests: a field, by an operator, against the value that begins at this byte of the list.
#[derive(Clone, Copy)]
pub struct Test {
    pub operator: Operator,
    pub field: FieldNumber,
    pub value: usize,
}

// R24: an argument tests nothing, or a field.
pub type Qualification = Option<Test>;

// An argument as it was read, and where in the list the next one begins.
#[derive(Clone, Copy)]
pub struct Argument {
    pub code: TypeCode,
    pub qualification: Qualification,
    pub next: usize,
}

// The statuses, in the order of the status table.
#[derive(Clone, Copy)]
pub enum Status {
    Blank,
    GA,
    GK,
    GB,
    GE,
    GP,
    CX,
    TX,
    PX,
    AD,
    AC,
    AJ,
    AK,
    AH,
    AB,
    DJ,
    DA,
    II,
    FX,
    PD,
}

// R46: what a call tells, and the position that it leaves.
#[derive(Clone, Copy)]
pub struct Answer {
    pub status: Status,
    pub position: Position,
    pub code: TypeCode,
    pub level: u8,
    pub length: u8,
    pub removed: usize,
}
