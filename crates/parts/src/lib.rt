// What callers in other languages take apart and put together without knowing the formats: results, positions, cells and lists. Each takes any bytes.
#![tactic(auto)]

pub mod blocks_read;
pub mod lists;
pub mod positions;
pub mod results;
pub mod told;
