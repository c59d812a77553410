// Text written into a buffer: each function writes from a place on, and answers the place behind what it wrote.
ghost use Rattle.std.specs.Prelude.{◌≡◌, [], ◌∷◌, ◌+◌, ◌*◌, ◌<◌, ◌≤◌, length};
ghost use Rattle.terms.specs.Statuses.{letters};
ghost use Rattle.rules.specs.Listing.{digits, decimal, hex_digit, hex};
ghost use Rattle.listing.specs.Written.{Wrote};

use terms::Status;
use terms::statuses::letters;

pub(crate) fn put_byte(out: &mut [u8], at: usize, b: u8) -> usize
    requires { at < length out.old }
    ensures { Wrote at (b ∷ []) out.old result out.new }
{
    out[at] = b;
    at + 1
}

// "status (-- for blank)"
pub(crate) fn put_letters(out: &mut [u8], at: usize, s: Status) -> usize
    requires { at + 2 ≤ length out.old }
    ensures { Wrote at (letters s) out.old result out.new × (result ≡ at + 2) }
{
    let two = letters(s);
    let next = put_byte(out, at, two[0]);
    put_byte(out, next, two[1])
}

// A number of at most k digits: the higher ones first. It calls itself, since a `for` would have to count the digits, or to write them backwards, first.
fn put_digits(out: &mut [u8], at: usize, k: usize, n: usize) -> usize
    requires { at + k ≤ length out.old }
    ensures { Wrote at (digits k n) out.old result out.new × (result ≤ at + k) }
{
    if k == 0 {
        return at;
    }
    if n < 10 {
        return put_byte(out, at, 0x30 + n as u8);
    }
    let next = put_digits(out, at, k - 1, n / 10);
    put_byte(out, next, 0x30 + (n % 10) as u8)
}

pub(crate) fn put_decimal(out: &mut [u8], at: usize, n: usize) -> usize
    requires { at + 5 ≤ length out.old }
    ensures { Wrote at (decimal n) out.old result out.new × (result ≤ at + 5) }
{
    put_digits(out, at, 5, n)
}

fn hex_digit(n: u8) -> u8
    requires { n < 16 }
    ensures { result ≡ hex_digit n }
{
    if n < 10 { 0x30 + n } else { 0x37 + n }
}

// "the L data bytes in upper-case hex"
pub(crate) fn put_hex(out: &mut [u8], at: usize, from: &[u8]) -> usize
    requires { at + 2 * length from.now ≤ length out.old }
    ensures { Wrote at (hex from.now) out.old result out.new × (result ≡ at + 2 * length from.now) }
{
    let mut next = at;
    for &b in from {
        next = put_byte(out, next, hex_digit(b / 16));
        next = put_byte(out, next, hex_digit(b % 16));
    }
    next
}
