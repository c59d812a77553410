// A number and two letters for each status (R48).
ghost use Rattle.std.specs.Prelude.{◌≡◌};
ghost use Rattle.terms.specs.Statuses.{number, letters};

use crate::Status;

pub fn number(s: Status) -> u8
    ensures { result ≡ number s }
{
    match s {
        Status::Blank => 0,
        Status::GA => 1,
        Status::GK => 2,
        Status::GB => 10,
        Status::GE => 11,
        Status::GP => 12,
        Status::CX => 20,
        Status::TX => 21,
        Status::PX => 22,
        Status::AD => 23,
        Status::AC => 24,
        Status::AJ => 25,
        Status::AK => 26,
        Status::AH => 27,
        Status::AB => 28,
        Status::DJ => 29,
        Status::DA => 30,
        Status::II => 31,
        Status::FX => 32,
        Status::PD => 33,
    }
}

// As the listing prints them: two hyphens for blank.
pub fn letters(s: Status) -> [u8; 2]
    ensures { result ≡ letters s }
{
    match s {
        Status::Blank => [b'-', b'-'],
        Status::GA => [b'G', b'A'],
        Status::GK => [b'G', b'K'],
        Status::GB => [b'G', b'B'],
        Status::GE => [b'G', b'E'],
        Status::GP => [b'G', b'P'],
        Status::CX => [b'C', b'X'],
        Status::TX => [b'T', b'X'],
        Status::PX => [b'P', b'X'],
        Status::AD => [b'A', b'D'],
        Status::AC => [b'A', b'C'],
        Status::AJ => [b'A', b'J'],
        Status::AK => [b'A', b'K'],
        Status::AH => [b'A', b'H'],
        Status::AB => [b'A', b'B'],
        Status::DJ => [b'D', b'J'],
        Status::DA => [b'D', b'A'],
        Status::II => [b'I', b'I'],
        Status::FX => [b'F', b'X'],
        Status::PD => [b'P', b'D'],
    }
}
