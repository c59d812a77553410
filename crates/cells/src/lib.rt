// Cells by number: type, data, key, run and parent (R13, R17).
// `size` is C and goes along with the two blocks, so that it is worked out once for a whole call.
#![tactic(auto)]

pub mod lookup;
pub mod runs;
