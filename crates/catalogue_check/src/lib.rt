// The check of a catalogue (R2 to R8), and the rules of one entry.
#![tactic(auto)]

pub mod check;
pub mod entry;
