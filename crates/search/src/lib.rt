// Which segments match two lists as one: the first one after a place and before an end, and the first one along the position.
// A search is one pass forward that carries one number, how far down its path the last cell agreed with the lists; it climbs once, at its start. What is
// asked of each type stands in a row that the search fills once.
// Where nothing is tested above the last type it carries nothing and needs no row: each cell tells by itself (`alone`).
#![tactic(auto)]

use terms::CellNumber;

pub mod agree;
pub mod alone;
pub mod along;
pub mod beneath;
pub mod forward;
pub mod stretch;

// What a path gives from its root down: how many of its cells agree, and the last of them whose level is implied.
#[derive(Clone, Copy)]
pub struct Reached {
    pub long: u8,
    pub kept: Option<CellNumber>,
}
