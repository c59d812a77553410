// How much of each block counts: a number of four bytes, as COBOL's COMP has it, and never more than the block has.
ghost use Rattle.std.specs.Prelude.{◌≡◌, ◌+◌, ◌<◌, ◌≤◌};
ghost use Rattle.cobol.specs.Lent.{length_at, cat_length, tab_length, list_length, second_length, area_length, out_length};

use blocks::wide;

fn length_at(ask: &[u8; 21], i: usize, most: usize) -> usize
    requires { i + 3 < 21 }
    ensures { (result ≡ length_at ask.now i most) × (result ≤ most) }
{
    let high = 16777216 * wide(ask[i]) + 65536 * wide(ask[i + 1]);
    let n = high + 256 * wide(ask[i + 2]) + wide(ask[i + 3]);
    n.min(most)
}

// Each length has its name, for a place in `ask` and a size stand together here alone: a number handed by each caller reads no plainer.
pub(crate) fn cat_length(ask: &[u8; 21]) -> usize
    ensures { (result ≡ cat_length ask.now) × (result ≤ 521) }
{
    length_at(ask, 1, 521)
}

pub(crate) fn tab_length(ask: &[u8; 21]) -> usize
    ensures { (result ≡ tab_length ask.now) × (result ≤ 495625) }
{
    length_at(ask, 5, 495625)
}

pub(crate) fn list_length(ask: &[u8; 21]) -> usize
    ensures { (result ≡ list_length ask.now) × (result ≤ 1846) }
{
    length_at(ask, 9, 1846)
}

pub(crate) fn second_length(ask: &[u8; 21]) -> usize
    ensures { (result ≡ second_length ask.now) × (result ≤ 1846) }
{
    length_at(ask, 13, 1846)
}

pub(crate) fn area_length(ask: &[u8; 21]) -> usize
    ensures { (result ≡ area_length ask.now) × (result ≤ 120) }
{
    length_at(ask, 17, 120)
}

pub(crate) fn out_length(ask: &[u8; 21]) -> usize
    ensures { (result ≡ out_length ask.now) × (result ≤ 8192) }
{
    length_at(ask, 17, 8192)
}
