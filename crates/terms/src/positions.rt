// What the calls make of a position. Each method takes the position and hands it back.
ghost use Rattle.std.specs.Prelude.{◌≡◌, ◌+◌, ◌<◌};
ghost use Rattle.terms.specs.Moves.{fresh, moved_onto, hold_dropped, after_insert, after_delete, place_cell};

use crate::{CellNumber, Parentage, Place, Position};

impl Position {
    // R19: the position before any call.
    pub fn fresh() -> Self
        ensures { result ≡ fresh }
    {
        Position {
            place: Place::Before(CellNumber(0)),
            parentage: None,
            hold: false,
        }
    }

    // R37: onto the cell that was found, with the parentage and the hold that the call gives.
    pub fn moved_onto(self, c: CellNumber, parentage: Parentage, hold: bool) -> Self
        ensures { result ≡ moved_onto c.0 parentage hold }
    {
        Position {
            place: Place::On(c),
            parentage,
            hold,
        }
    }

    // Made anew: what is copied whole has to wait for the pieces of it that were written just before.
    pub fn hold_dropped(self) -> Self
        ensures { result ≡ hold_dropped self }
    {
        let hold = false;
        Position { hold, ..self }
    }

    // R42: shifted by its own insert of cell c; `beneath` says whether that is beneath the parentage.
    pub fn after_insert(self, c: CellNumber, beneath: bool) -> Self
        ensures { result ≡ after_insert c.0 beneath self }
    {
        Position {
            place: Place::On(c),
            parentage: if beneath { self.parentage } else { None },
            hold: false,
        }
    }

    // R45: shifted by its own delete of the n cells from c on.
    pub fn after_delete(self, c: CellNumber, n: usize) -> Self
        requires { c.0 + n < 65536 }
        ensures { result ≡ after_delete c.0 n self }
    {
        Position {
            place: Place::Before(c),
            parentage: self.parentage.filter(|q| q.0 < c.0 || c.0 + n <= q.0),
            hold: false,
        }
    }

    // The cell that the place is on, or in the gap before.
    pub fn cell(self) -> CellNumber
        ensures { result ≡ place_cell self.place }
    {
        match self.place {
            Place::On(c) | Place::Before(c) => c,
        }
    }
}
