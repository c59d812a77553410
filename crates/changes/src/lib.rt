// ISRT, REPL and DLET on blocks that are sound, each down to the bytes of the table.
#![tactic(auto)]

pub mod held;
pub mod insert;
