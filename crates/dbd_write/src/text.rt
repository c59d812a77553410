// Parts of a text, each written from a place on where there is room for it. What is answered is the place behind it, whether there was room or not.
ghost use Rattle.std.specs.Prelude.{◌≡◌, [], ◌∷◌, ◌+◌, ◌<◌, ◌≤◌, length};
ghost use Rattle.rules.specs.Listing.{decimal};
ghost use Rattle.statements.specs.Words.{trimmed};
ghost use Rattle.dbd_write.specs.Wrote.{Wrote};

use blocks::moves::put;
use dbd_names::name_end;

pub(crate) fn put_text(out: &mut [u8], at: usize, from: &[u8]) -> usize
    requires { at + length from.now < 4294967296 }
    ensures { Wrote at from.now out.old result out.new }
{
    let next = at + from.len();
    if next <= out.len() {
        put(&mut out[at..], from);
    }
    next
}

fn put_digit(out: &mut [u8], at: usize, n: u8) -> usize
    requires { (at + 1 < 4294967296) × (n < 10) }
    ensures { Wrote at ((0x30 + n) ∷ []) out.old result out.new }
{
    put_text(out, at, &[0x30 + n])
}

pub(crate) fn put_decimal(out: &mut [u8], at: usize, n: u8) -> usize
    requires { at + 3 < 4294967296 }
    ensures { Wrote at (decimal n) out.old result out.new × (result ≤ at + 3) }
{
    if n < 10 {
        return put_digit(out, at, n);
    }
    if n < 100 {
        let a = put_digit(out, at, n / 10);
        return put_digit(out, a, n % 10);
    }
    let a = put_digit(out, at, n / 100);
    let b = put_digit(out, a, n / 10 % 10);
    put_digit(out, b, n % 10)
}

// A name without the spaces behind it.
pub(crate) fn put_name(out: &mut [u8], at: usize, name: &[u8]) -> usize
    requires { (at + 8 < 4294967296) × (length name.now ≡ 8) }
    ensures { Wrote at (trimmed name.now) out.old result out.new × (result ≤ at + 8) }
{
    let end = name_end(name);
    put_text(out, at, &name[..end])
}
