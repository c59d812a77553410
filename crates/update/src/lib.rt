// What ISRT, REPL and DLET do to the lent table, in place, from the cell concerned on (R47).
#![tactic(auto)]

pub mod edits;
pub mod moves;
