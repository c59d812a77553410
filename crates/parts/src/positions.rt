// The parts of a position's block (R23). Flags are 0 or 1, since the twins in umbristal_c hand C plain numbers.
ghost use Rattle.std.specs.Prelude.{◌≡◌, ◌+◌, ◌*◌, eqb};
ghost use Rattle.rules.specs.Block.{word};
ghost use Rattle.terms.specs.Choice.{pick};
ghost use Rattle.parts.specs.Blocks.{flag};

fn flag(b: u8) -> u8
    ensures { result ≡ pick (eqb b 1) 1 0 }
{
    u8::from(b == 1)
}

fn pair(high: u8, low: u8) -> u16
    ensures { result ≡ 256 * high + low }
{
    u16::from_be_bytes([high, low])
}

// 1 where the place is on a cell, 0 where it is in the gap before one.
pub fn umbristal_on_cell(pos: &[u8; 8]) -> u8
    ensures { result ≡ flag pos.now 0 }
{
    flag(pos[0])
}

// The number of that cell.
pub fn umbristal_cell(pos: &[u8; 8]) -> u16
    ensures { result ≡ word pos.now 1 }
{
    pair(pos[1], pos[2])
}

// 1 where there is a parentage, else 0.
pub fn umbristal_has_parentage(pos: &[u8; 8]) -> u8
    ensures { result ≡ flag pos.now 3 }
{
    flag(pos[3])
}

// Its cell; 0 also where there is none.
pub fn umbristal_parentage(pos: &[u8; 8]) -> u16
    ensures { result ≡ word pos.now 4 }
{
    pair(pos[4], pos[5])
}

// 1 where the segment that the place is on is held, else 0.
pub fn umbristal_hold(pos: &[u8; 8]) -> u8
    ensures { result ≡ flag pos.now 6 }
{
    flag(pos[6])
}
