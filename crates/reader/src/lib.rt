// The get-next reader: the slices it reads, the two lists that it asks with as one, and where it stands. A loop asks it for the next cell, or for the
// next one beneath its parentage, until none is left. It holds nothing else: what a search carries from call to call does not live here.
#![tactic(auto)]

ghost use Rattle.std.specs.Prelude.{◌≡◌, false, ◌++◌, suc, ◌≤◌, length};
ghost use Rattle.terms.specs.Moves.{is_absent};
ghost use Rattle.rules.specs.Block.{byte};
ghost use Rattle.rules.specs.Table.{listing};
ghost use Rattle.rules.specs.Arguments.{list_read, get_levels};
ghost use Rattle.rules.specs.Calls.{get_next, get_next_within};
ghost use Rattle.arguments.specs.Asked.{Pair};
ghost use Rattle.answers.specs.Ready.{Ready, left, Again};
ghost use Rattle.reader.specs.Moved.{Asking, AskingAgain, AskingWithin, got_next, got_within, moved};

use blocks::wide;
use gets::{get_next, get_next_within};
use terms::{Answer, Position};

// The slices it reads, the two lists that it asks with as one, and where it stands. A reader with one list has an empty one behind it.
#[derive(Clone, Copy)]
pub struct Reader<'a, 'b, 'c, 'd> {
    pub cat: &'a [u8],
    pub tab: &'b [u8],
    pub one: &'c [u8],
    pub two: &'d [u8],
    pub position: Position,
}

// What a call answered, and the reader moved on to the answer's position.
#[derive(Clone, Copy)]
pub struct Step<'a, 'b, 'c, 'd> {
    pub answer: Answer,
    pub reader: Reader<'a, 'b, 'c, 'd>,
}

// The covered call: GN without a hold, with the cell size that the table tells.
fn call_next(
    cat: &[u8],
    tab: &[u8],
    one: &[u8],
    two: &[u8],
    pos: Position,
    area: &mut [u8],
) -> Answer
    requires { Asking cat.now tab.now one.now two.now pos area.old }
    ensures { left result area.new
        ≡ got_next cat.now tab.now (one.now ++ two.now) pos area.old }
{
    get_next(cat, tab, wide(tab[5]), pos, one, two, area, false, false)
}

// The same where the place is on a cell that the lists match, or before the first: so where a loop of GN with these lists stands.
fn call_again(
    cat: &[u8],
    tab: &[u8],
    one: &[u8],
    two: &[u8],
    pos: Position,
    area: &mut [u8],
) -> Answer
    requires { AskingAgain cat.now tab.now one.now two.now pos area.old }
    ensures { left result area.new
        ≡ got_next cat.now tab.now (one.now ++ two.now) pos area.old }
{
    get_next(cat, tab, wide(tab[5]), pos, one, two, area, false, true)
}

// The same of GNP.
fn call_within(
    cat: &[u8],
    tab: &[u8],
    one: &[u8],
    two: &[u8],
    pos: Position,
    area: &mut [u8],
) -> Answer
    requires { AskingWithin cat.now tab.now one.now two.now pos area.old }
    ensures { left result area.new
        ≡ got_within cat.now tab.now (one.now ++ two.now) pos area.old }
{
    get_next_within(cat, tab, wide(tab[5]), pos, one, two, area, false)
}

impl<'a, 'b, 'c, 'd> Reader<'a, 'b, 'c, 'd> {
    // A reader of these blocks with these lists, at this position.
    pub fn new(
        cat: &'a [u8],
        tab: &'b [u8],
        one: &'c [u8],
        two: &'d [u8],
        position: Position,
    ) -> Reader<'a, 'b, 'c, 'd>
        ensures { (result.cat ≡ cat.entry) × (result.tab ≡ tab.entry) × (result.one ≡ one.entry) × (result.two ≡ two.entry) × (result.position ≡ position) }
    {
        Reader {
            cat,
            tab,
            one,
            two,
            position,
        }
    }

    // The answer of a call, with the reader where the answer says.
    fn moved(self, answer: Answer) -> Step<'a, 'b, 'c, 'd>
        ensures answers { result.answer ≡ answer }
        ensures moves { result.reader ≡ moved self.entry answer.position }
    {
        let reader = Reader {
            position: answer.position,
            ..self
        };
        Step { answer, reader }
    }

    // GN from where the reader stands; it stands where the answer says then.
    pub fn next(self, area: &mut [u8]) -> Step<'a, 'b, 'c, 'd>
        requires { Asking self.cat.now self.tab.now self.one.now self.two.now self.position area.old }
        ensures { (left result.answer area.new
            ≡ got_next self.entry.cat.now self.entry.tab.now (self.entry.one.now ++ self.entry.two.now) self.entry.position area.old)
            × (result.reader ≡ moved self.entry result.answer.position) }
    {
        self.moved(call_next(self.cat, self.tab, self.one, self.two, self.position, area))
    }

    // GN once more, where it has found the last cell or begins: nothing that the lists ask above that cell is tested again.
    pub fn again(self, area: &mut [u8]) -> Step<'a, 'b, 'c, 'd>
        requires { AskingAgain self.cat.now self.tab.now self.one.now self.two.now self.position area.old }
        ensures { (left result.answer area.new ≡ got_next self.entry.cat.now self.entry.tab.now
            (self.entry.one.now ++ self.entry.two.now) self.entry.position area.old)
            × (result.reader ≡ moved self.entry result.answer.position) }
    {
        self.moved(call_again(self.cat, self.tab, self.one, self.two, self.position, area))
    }

    // GNP likewise: the next cell beneath the parentage.
    pub fn within(self, area: &mut [u8]) -> Step<'a, 'b, 'c, 'd>
        requires { AskingWithin self.cat.now self.tab.now self.one.now self.two.now self.position area.old }
        ensures { (left result.answer area.new
            ≡ got_within self.entry.cat.now self.entry.tab.now (self.entry.one.now ++ self.entry.two.now) self.entry.position area.old)
            × (result.reader ≡ moved self.entry result.answer.position) }
    {
        self.moved(call_within(self.cat, self.tab, self.one, self.two, self.position, area))
    }
}

// A reader made and asked once: what a loop with plain slices calls. The answer's position is where the reader moved to.
pub fn read_next(
    cat: &[u8],
    tab: &[u8],
    one: &[u8],
    two: &[u8],
    pos: Position,
    area: &mut [u8],
) -> Answer
    requires { Ready cat.now tab.now (byte tab.now 5) pos (one.now ++ two.now) × Pair cat.now one.now two.now
        × (byte tab.now 5 ≤ suc (length area.old)) }
    ensures { left result area.new
        ≡ get_next cat.now (listing cat.now tab.now) pos area.old false
        (get_levels cat.now (one.now ++ two.now)
        (list_read cat.now (one.now ++ two.now)).arguments) }
{
    Reader::new(cat, tab, one, two, pos).next(area).answer
}

// The same in a loop of GN with these lists.
pub fn read_again(
    cat: &[u8],
    tab: &[u8],
    one: &[u8],
    two: &[u8],
    pos: Position,
    area: &mut [u8],
) -> Answer
    requires { Ready cat.now tab.now (byte tab.now 5) pos (one.now ++ two.now) × Pair cat.now one.now two.now
        × (byte tab.now 5 ≤ suc (length area.old)) × Again cat.now tab.now (one.now ++ two.now) pos }
    ensures { left result area.new
        ≡ get_next cat.now (listing cat.now tab.now) pos area.old false
        (get_levels cat.now (one.now ++ two.now)
        (list_read cat.now (one.now ++ two.now)).arguments) }
{
    Reader::new(cat, tab, one, two, pos).again(area).answer
}

// The same of GNP.
pub fn read_within(
    cat: &[u8],
    tab: &[u8],
    one: &[u8],
    two: &[u8],
    pos: Position,
    area: &mut [u8],
) -> Answer
    requires { Ready cat.now tab.now (byte tab.now 5) pos (one.now ++ two.now) × Pair cat.now one.now two.now
        × (byte tab.now 5 ≤ suc (length area.old))
        × (is_absent pos.parentage ≡ false) }
    ensures { left result area.new
        ≡ get_next_within cat.now (listing cat.now tab.now) pos area.old false
        (get_levels cat.now (one.now ++ two.now)
        (list_read cat.now (one.now ++ two.now)).arguments) }
{
    Reader::new(cat, tab, one, two, pos).within(area).answer
}
