// Argument lists (R24 to R29): read from the left, the first fault answers; and what a sound list asks, or two lists as one.
#![tactic(auto)]

pub mod alone;
pub mod asked;
pub mod lookup;
pub mod read;
