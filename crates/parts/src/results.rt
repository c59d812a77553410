// The parts of a call's result, and of a report's (R72).
ghost use Rattle.std.specs.Prelude.{◌≡◌, [], ◌∷◌, ◌++◌};
ghost use Rattle.parts.specs.Result.{status_part, type_part, level_part, length_part, removed_part, letters_of};

use terms::Status;
use terms::statuses::letters;

pub fn umbristal_status(res: u64) -> u8
    ensures { result ≡ status_part res }
{
    (res % 256) as u8
}

pub fn umbristal_type(res: u64) -> u8
    ensures { result ≡ type_part res }
{
    (res / 256 % 256) as u8
}

pub fn umbristal_level(res: u64) -> u8
    ensures { result ≡ level_part res }
{
    (res / 65536 % 256) as u8
}

pub fn umbristal_length(res: u64) -> u8
    ensures { result ≡ length_part res }
{
    (res / 16777216 % 256) as u8
}

// How many segments DLET took away.
pub fn umbristal_removed(res: u64) -> u32
    ensures { result ≡ removed_part res }
{
    (res / 4294967296 % 65536) as u32
}

// How many segments a report shows: they stand where `removed` does.
pub fn umbristal_hits(res: u64) -> u32
    ensures { result ≡ removed_part res }
{
    umbristal_removed(res)
}

// The two letters of a status number. Arm by arm: a status from a number would have these twenty arms too, and nothing else asks for one.
pub(crate) fn letters_of(status: u8) -> [u8; 2]
    ensures { result ≡ letters_of status }
{
    match status {
        0 => letters(Status::Blank),
        1 => letters(Status::GA),
        2 => letters(Status::GK),
        10 => letters(Status::GB),
        11 => letters(Status::GE),
        12 => letters(Status::GP),
        20 => letters(Status::CX),
        21 => letters(Status::TX),
        22 => letters(Status::PX),
        23 => letters(Status::AD),
        24 => letters(Status::AC),
        25 => letters(Status::AJ),
        26 => letters(Status::AK),
        27 => letters(Status::AH),
        28 => letters(Status::AB),
        29 => letters(Status::DJ),
        30 => letters(Status::DA),
        31 => letters(Status::II),
        32 => letters(Status::FX),
        33 => letters(Status::PD),
        _ => [b'?', b'?'],
    }
}

// The letters, and a zero behind them, where C's strings end.
pub fn umbristal_letters(status: u8, letters: &mut [u8; 3])
    ensures { letters.new ≡ letters_of status ++ 0 ∷ [] }
{
    let two = letters_of(status);
    *letters = [two[0], two[1], 0];
}
