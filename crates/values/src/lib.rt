// Values by their value type (R86 to R88): bytes, or packed decimal. Digits are compared as the bytes that hold them, so that no number is ever made of them.
#![tactic(auto)]

ghost use Rattle.std.specs.Prelude.{◌≡◌, true, ◌+◌, ◌≤◌, eqb, length};
ghost use Rattle.rules.specs.Packed.{is_number, magnitude, is_minus, number_order, packed_order};
ghost use Rattle.rules.specs.Block.{part};
ghost use Rattle.rules.specs.Order.{is_value};
ghost use Rattle.std.specs.List.{list_all};
ghost use Rattle.values.specs.Lent.{two_digits, Numbers, unless_zeros, tested};

use blocks::slices::{all_zero, order_of};
use std::cmp::Ordering;
use terms::Operator;
use terms::operators::holds;

// Whether each byte has two digits.
fn has_digits(b: &[u8]) -> bool
    ensures { result ≡ list_all two_digits b.now }
{
    b.iter().all(|&x| x / 16 <= 9 && x % 16 <= 9)
}

// R87: digits 0 to 9, two in a byte, and behind the last of them a sign, A to F.
#[tactic(auto, using(crate::proofs::Number::none_number))]
pub fn is_number(b: &[u8]) -> bool
    ensures { result ≡ is_number b.now }
{
    let Some((&last, before)) = b.split_last() else {
        return false;
    };
    has_digits(before) && (last / 16 <= 9 && 9 < last % 16)
}

// R86: whether these bytes are a value of value type w.
#[tactic(auto, unfolding(rules::specs::Order::is_value))]
pub fn is_value(w: u8, b: &[u8]) -> bool
    ensures { result ≡ is_value w b.now }
{
    w != 1 || is_number(b)
}

// R87: the signs B and D.
#[tactic(auto, unfolding(rules::specs::Packed::is_minus))]
fn is_minus(b: &[u8]) -> bool
    ensures { result ≡ is_minus b.now }
{
    b.last().is_some_and(|&last| matches!(last % 16, 0xB | 0xD))
}

// Whether every digit is 0.
#[tactic(auto, using(crate::proofs::Zero::zero_none))]
fn is_zero(b: &[u8]) -> bool
    ensures { result ≡ eqb (magnitude b.now) 0 }
{
    let Some((&last, before)) = b.split_last() else {
        return true;
    };
    last < 16 && all_zero(before)
}

#[tactic(auto, unfolding(rules::specs::Packed::number_order))]
fn digit_order(n: u8, m: u8) -> Ordering
    ensures { result ≡ number_order n m }
{
    if n < m {
        return Ordering::Less;
    }
    if m < n {
        return Ordering::Greater;
    }
    Ordering::Equal
}

// How the digits of a stand to those of b: the bytes before the last decide, then the digit in the last.
fn digits_order(a: &[u8], b: &[u8]) -> Ordering
    requires { length a.now ≡ length b.now }
    ensures { Numbers a.now b.now → result ≡ number_order (magnitude a.now) (magnitude b.now) }
{
    let Some((&x, xs)) = a.split_last() else {
        return Ordering::Equal;
    };
    let Some((&y, ys)) = b.split_last() else {
        return Ordering::Equal;
    };
    match order_of(xs, ys) {
        Ordering::Equal => digit_order(x / 16, y / 16),
        other => other,
    }
}

// What stands for two values of different signs, unless both are zero.
fn unless_zeros(a: &[u8], b: &[u8], o: Ordering) -> Ordering
    ensures { result ≡ unless_zeros a.now b.now o }
{
    if is_zero(a) && is_zero(b) {
        Ordering::Equal
    } else {
        o
    }
}

// R88: below zero the greater digits are the smaller value, and both zeros are one.
fn packed_order(a: &[u8], b: &[u8]) -> Ordering
    requires { length a.now ≡ length b.now }
    ensures { Numbers a.now b.now → result ≡ packed_order a.now b.now }
{
    match (is_minus(a), is_minus(b)) {
        (false, false) => digits_order(a, b),
        (true, true) => digits_order(b, a),
        (true, false) => unless_zeros(a, b, Ordering::Less),
        (false, true) => unless_zeros(a, b, Ordering::Greater),
    }
}

// R90: whether the `long` bytes of a from byte i on are a number and stand to those of b from byte j on, a number, as the operator says. Places are handed
// over and not parts of the slices: then a caller that meets no packed value keeps nothing for this call.
pub fn holds_at(o: Operator, a: &[u8], i: usize, b: &[u8], j: usize, long: usize) -> bool
    requires { (i + long ≤ length a.now) × (j + long ≤ length b.now) }
    ensures { is_number (part b.now j long) ≡ true
        → result ≡ tested 1 o (part a.now i long) (part b.now j long) }
{
    let x = i + long;
    let y = j + long;
    let own = &a[i..x];
    is_number(own) && holds(o, packed_order(own, &b[j..y]))
}
