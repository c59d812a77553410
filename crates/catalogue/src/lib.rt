// What the catalogue says of its types and fields, on any slice, and how the types lie one beneath another (R2 to R8). Its check is in `catalogue_check`.
#![tactic(auto)]

pub mod entries;
pub mod entry_bytes;
pub mod fields;
pub mod lineage;
pub mod type_range;
