// The parts of a call's result, and of a report's (R72).
ghost use Rattle.std.specs.Prelude.{◌≡◌, [], ◌∷◌, ◌++◌};
ghost use Rattle.parts.specs.Result.{status_part, type_part, level_part, length_part, removed_part, letters_of};

#[unsafe(no_mangle)]
pub extern "C" fn umbristal_status(res: u64) -> u8
    ensures { result ≡ status_part res }
{
    parts::results::umbristal_status(res)
}

#[unsafe(no_mangle)]
pub extern "C" fn umbristal_type(res: u64) -> u8
    ensures { result ≡ type_part res }
{
    parts::results::umbristal_type(res)
}

#[unsafe(no_mangle)]
pub extern "C" fn umbristal_level(res: u64) -> u8
    ensures { result ≡ level_part res }
{
    parts::results::umbristal_level(res)
}

#[unsafe(no_mangle)]
pub extern "C" fn umbristal_length(res: u64) -> u8
    ensures { result ≡ length_part res }
{
    parts::results::umbristal_length(res)
}

// How many segments DLET took away.
#[unsafe(no_mangle)]
pub extern "C" fn umbristal_removed(res: u64) -> u32
    ensures { result ≡ removed_part res }
{
    parts::results::umbristal_removed(res)
}

// How many segments a report shows: they stand where `removed` does.
#[unsafe(no_mangle)]
pub extern "C" fn umbristal_hits(res: u64) -> u32
    ensures { result ≡ removed_part res }
{
    parts::results::umbristal_hits(res)
}

// The letters, and a zero behind them, where C's strings end.
#[unsafe(no_mangle)]
pub extern "C" fn umbristal_letters(status: u8, letters: &mut [u8; 3])
    ensures { letters.new ≡ letters_of status ++ 0 ∷ [] }
{
    parts::results::umbristal_letters(status, letters);
}
