// What the lines so far have made (R77), kept in one array, and how one line more is taken (R78). The array has the header of a catalogue block, with T
// and F, then room for 32 types, 64 fields, the name of the data base, 32 names of segments and 64 of fields.
// One array and no struct of arrays: `catalogue_check::entry::good_type` reads its front as a catalogue block, and there is no heap.
// The draft and the levels are two parameters and no struct that keeps `Sound`, which need not hold after a fault: `good_type` promises no levels then.
#![tactic(auto)]

ghost use Rattle.std.specs.Prelude.{◌≡◌};
ghost use Rattle.dbd_draft.specs.Kept.{fault_of};

mod fields;
pub mod lines;
mod segments;

// What is wrong with a line: its first fault.
#[derive(Clone, Copy, PartialEq, Eq)]
pub enum Fault {
    Misplaced,
    Twice,
    Orphan,
    Unruled,
}

// R78: the number of a fault.
impl From<Fault> for u8 {
    ghost from_gives = { λ fault number. number ≡ fault_of fault };

    fn from(fault: Fault) -> u8 {
        match fault {
            Fault::Misplaced => 1,
            Fault::Twice => 2,
            Fault::Orphan => 3,
            Fault::Unruled => 20,
        }
    }
}
