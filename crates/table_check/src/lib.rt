// The check of a table (R10 to R15, R89): the frame and the room in it, the padding, the stored keys, and the two readers that call each other.
#![tactic(auto)]

pub mod check;
mod keys;
mod padding;
mod readers;
pub mod room;
