// The forms that the lines of a girocode take.

#![tactic(auto)]

ghost use Rattle.std.specs.Prelude.{◌≡◌};
ghost use Rattle.girocode.specs.Forms.{unread_coding, bic, iban, whole, fraction, with_fraction, amount, basic};

use girocode::limits;
use runs::{Kind, every, same};

// A coding that is not read: 3 to 8.
pub fn unread_coding(s: &[u8]) -> bool
    ensures { result ≡ unread_coding s.now }
{
    if s.len() != 1 {
        return false;
    }
    (51 <= s[0]) & (s[0] <= 56)
}

// 8 or 11 of A-Z 0-9.
pub fn bic(s: &[u8]) -> bool
    ensures { result ≡ bic s.now }
{
    ((s.len() == 8) | (s.len() == 11)) & every(Kind::DigitOrCapital, s)
}

// Two capitals, two digits, 1 to 30 of 0-9 A-Z.
pub fn iban(s: &[u8]) -> bool
    ensures { result ≡ iban s.now }
{
    if s.len() < limits::IBAN_FEWEST {
        return false;
    }
    (s.len() <= limits::IBAN_MOST)
        & every(Kind::Capital, &s[0..2])
        & every(Kind::Digit, &s[2..4])
        & every(Kind::DigitOrCapital, &s[4..])
}

// One to nine digits; no leading zero, save one zero below 1.
fn whole(s: &[u8]) -> bool
    ensures { result ≡ whole s.now }
{
    if s.len() < 1 {
        return false;
    }
    (s.len() <= 9) & every(Kind::Digit, s) & ((s.len() == 1) | (s[0] != 48))
}

// A point and digits, the last not 0.
fn fraction(s: &[u8]) -> bool
    ensures { result ≡ fraction s.now }
{
    if s.len() < 1 {
        return false;
    }
    let last = s.len() - 1;
    (s[0] == 46) & every(Kind::Digit, &s[1..]) & (s[last] != 48)
}

// A whole number, and a fraction that is the last n bytes.
fn with_fraction(n: usize, s: &[u8]) -> bool
    ensures { result ≡ with_fraction n s.now }
{
    if s.len() < n {
        return false;
    }
    let point = s.len() - n;
    whole(&s[0..point]) & fraction(&s[point..])
}

// EUR and the shortest form that has a digit before any point, 0.01 to 999999999.99.
pub fn amount(s: &[u8]) -> bool
    ensures { result ≡ amount s.now }
{
    if s.len() < 3 {
        return false;
    }
    let v = &s[3..];
    same(&s[0..3], &limits::EURO)
        & (whole(v) | with_fraction(2, v) | with_fraction(3, v))
        & !same(v, b"0")
}

// Bytes 20 to 7E only.
pub fn basic(s: &[u8]) -> bool
    ensures { result ≡ basic s.now }
{
    every(Kind::Plain, s)
}
