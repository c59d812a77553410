// Blocks of bytes (R1). Each of these takes any slice and any number.
#![tactic(auto)]

pub mod moves;
pub mod slices;

ghost use Rattle.std.specs.Prelude.{◌≡◌, ◌<◌};
ghost use Rattle.rules.specs.Block.{byte, word, marked};

pub fn wide(b: u8) -> usize
    ensures { (result ≡ b) × (result < 256) }
{
    b as usize
}

// Byte i; 0 past the end.
pub fn byte_at(b: &[u8], i: usize) -> u8
    ensures { result ≡ byte b.now i }
{
    b.get(i).copied().unwrap_or(0)
}

// The 16-bit number at byte i, high byte first.
pub fn word_at(b: &[u8], i: usize) -> usize
    ensures { (result ≡ word b.now i) × (result < 65536) }
{
    if i < b.len() {
        let high = wide(byte_at(b, i));
        let low = wide(byte_at(b, i + 1));
        256 * high + low
    } else {
        0
    }
}

// Whether a block begins with H, D and this letter, and has version 1.
#[tactic(auto, unfolding(rules::specs::Block::marked))]
pub fn is_marked(letter: u8, b: &[u8]) -> bool
    ensures { result ≡ marked letter b.now }
{
    byte_at(b, 0) == b'H' && byte_at(b, 1) == b'D' && byte_at(b, 2) == letter && word_at(b, 3) == 1
}
