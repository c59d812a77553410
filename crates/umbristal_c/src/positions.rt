// The parts of a position's block (R23).
ghost use Rattle.std.specs.Prelude.{◌≡◌};
ghost use Rattle.rules.specs.Block.{word};
ghost use Rattle.parts.specs.Blocks.{flag};

// 1 where the place is on a cell, 0 where it is in the gap before one.
#[unsafe(no_mangle)]
pub extern "C" fn umbristal_on_cell(pos: &[u8; 8]) -> u8
    ensures { result ≡ flag pos.now 0 }
{
    parts::positions::umbristal_on_cell(pos)
}

// The number of that cell.
#[unsafe(no_mangle)]
pub extern "C" fn umbristal_cell(pos: &[u8; 8]) -> u16
    ensures { result ≡ word pos.now 1 }
{
    parts::positions::umbristal_cell(pos)
}

// 1 where there is a parentage, else 0.
#[unsafe(no_mangle)]
pub extern "C" fn umbristal_has_parentage(pos: &[u8; 8]) -> u8
    ensures { result ≡ flag pos.now 3 }
{
    parts::positions::umbristal_has_parentage(pos)
}

// Its cell; 0 also where there is none.
#[unsafe(no_mangle)]
pub extern "C" fn umbristal_parentage(pos: &[u8; 8]) -> u16
    ensures { result ≡ word pos.now 4 }
{
    parts::positions::umbristal_parentage(pos)
}

// 1 where the segment that the place is on is held, else 0.
#[unsafe(no_mangle)]
pub extern "C" fn umbristal_hold(pos: &[u8; 8]) -> u8
    ensures { result ≡ flag pos.now 6 }
{
    parts::positions::umbristal_hold(pos)
}
