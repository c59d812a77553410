// A result told in a lent block of 8 bytes (R72), for languages that cannot take 64 bits as a function's result.
ghost use Rattle.std.specs.Prelude.{◌≡◌};
ghost use Rattle.parts.specs.Result.{told_letters, told_of};

use crate::results::{
    letters_of, umbristal_length, umbristal_level, umbristal_removed, umbristal_status,
    umbristal_type,
};

// As a DL/I program expects them: spaces for blank.
fn told_letters(status: u8) -> [u8; 2]
    ensures { result ≡ told_letters status }
{
    if status == 0 {
        return [b' ', b' '];
    }
    letters_of(status)
}

pub fn tell(res: u64, told: &mut [u8; 8])
    ensures { told.new ≡ told_of res }
{
    let status = umbristal_status(res);
    let two = told_letters(status);
    let removed = umbristal_removed(res);
    *told = [
        two[0],
        two[1],
        status,
        umbristal_type(res),
        umbristal_level(res),
        umbristal_length(res),
        (removed / 256) as u8,
        (removed % 256) as u8,
    ];
}
