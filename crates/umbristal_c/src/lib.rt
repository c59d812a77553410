// The archive for C, COBOL and Rust: an export for each function of the libraries below that they call, with its clauses. Nothing is decided here.
#![tactic(auto)]

mod blocks_read;
mod by_reference;
mod dbd;
mod lists;
mod positions;
mod results;
mod store;
