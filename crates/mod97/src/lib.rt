// Check digits of texts of any length by MOD 97-10.

#![tactic(auto)]

mod table;

ghost use Rattle.std.specs.Prelude.{true, ◌≡◌, ◌+◌, ◌*◌, ◌%◌, ◌^◌, ◌≤◌, ◌<◌, length, take, drop};
ghost use Rattle.sieve.specs.Bytes.{every};
ghost use Rattle.sieve.specs.Letters.{digit, capital};
ghost use Rattle.sieve.specs.Mod97.{value, onto, numeral, remainder97, pair, checks97};
ghost use Rattle.mod97.specs.Steps.{remainders};

use crate::table::STEP;

// From here on, 100 ^ 8, a number has no room for a character more.
const LARGE: u64 = 10000000000000000;

// What a character stands for: a digit for itself, a letter for 10 to 35 (a small letter as its capital), any other
// byte for 0.
fn value(x: u8) -> u64
    ensures { result ≡ value x }
{
    if x.is_ascii_digit() {
        return (x - b'0') as u64;
    }
    if x.is_ascii_uppercase() {
        return x as u64 - 55;
    }
    if x.is_ascii_lowercase() {
        return x as u64 - 87;
    }
    0
}

// The decimal number n with one character more: one decimal place for a digit, two for any other. A number of eight
// characters has room for a ninth.
fn extended(n: u64, x: u8) -> u64
    requires { n < 100 ^ 8 }
    ensures { result ≡ onto n x }
{
    if x.is_ascii_digit() {
        10 * n + value(x)
    } else {
        100 * n + value(x)
    }
}

// A number that leaves the same remainder by 97 and has room for a character more: itself, where it has.
fn reduced(n: u64) -> u64
    ensures { (result % 97 ≡ n % 97) × (result < 100 ^ 8) }
{
    if n < LARGE {
        return n;
    }
    n % 97
}

// The remainder by 97 of the number n with a text more. Only the remainder of what stands before counts, so no text is too
// long; it is taken only where the number grows too large, and not at each character.
pub fn remainder_after(n: u64, s: &[u8]) -> u64
    ensures { result ≡ numeral n s.now % 97 }
{
    let mut r = n % 97;
    for x in s {
        r = extended(reduced(r), *x);
    }
    r % 97
}

// MOD 97-10: the remainder by 97 of the number that a text stands for, its first four characters moved to its end.
// Nothing is moved: the four are read after the others. Fewer than four have no others to go behind.
pub fn remainder97(s: &[u8]) -> u64
    ensures { result ≡ remainder97 s.now }
{
    if s.len() < 4 {
        return remainder_after(0, s);
    }
    let r = remainder_after(0, &s[4..]);
    remainder_after(r, &s[0..4])
}

// A byte as a wider number.
fn wide(x: u8) -> usize
    ensures { result ≡ x }
{
    x as usize
}

// What a digit stands for, as a wider number.
fn wide_digit(x: u8) -> usize
    requires { digit x ≡ true }
    ensures { (result ≡ value x) × (result < 10) }
{
    wide(x) - 48
}

// The table of steps, to be lent. Each function that names a constant array stores it anew, so one function names it,
// once for each text.
fn steps() -> [u8; 970]
    ensures { remainders 0 result ≡ true }
{
    STEP
}

// The remainder by 97 of a place in the table.
fn looked_up(table: &[u8; 970], place: usize) -> usize
    requires { (remainders 0 table.now ≡ true) × (place < 970) }
    ensures { result ≡ place % 97 }
{
    wide(table[place])
}

// The remainder by 97 of the number n with one decimal place more.
fn one_place(table: &[u8; 970], n: usize, d: usize) -> usize
    requires { (remainders 0 table.now ≡ true) × (n < 97) × (d < 10) }
    ensures { result ≡ (10 * n + d) % 97 }
{
    looked_up(table, 10 * n + d)
}

// The remainder by 97 of the number n with two decimal places more. 100 times n is 97 times and 3 times n, so that one
// look into the table is enough.
fn two_places(table: &[u8; 970], n: usize, v: usize) -> usize
    requires { (remainders 0 table.now ≡ true) × (n < 97) × (v < 100) }
    ensures { result ≡ (100 * n + v) % 97 }
{
    looked_up(table, 3 * n + v)
}

// The remainder by 97 of the number n with one character more: one decimal place for a digit, two for any other.
fn stepped(table: &[u8; 970], n: usize, x: u8) -> usize
    requires { (remainders 0 table.now ≡ true) × (n < 97) }
    ensures { result ≡ onto n x % 97 }
{
    if x.is_ascii_digit() {
        return one_place(table, n, wide_digit(x));
    }
    two_places(table, n, value(x) as usize)
}

// The remainder by 97 of the number n with a text more, two characters in each turn.
fn run_by_two(table: &[u8; 970], n: usize, s: &[u8]) -> usize
    requires { (remainders 0 table.now ≡ true) × (n < 97) × (length s.now % 2 ≡ 0) }
    ensures { result ≡ numeral n s.now % 97 }
{
    let mut r = n;
    for i in 0..s.len() / 2 {
        r = stepped(table, stepped(table, r, s[2 * i]), s[2 * i + 1]);
    }
    r
}

// The remainder by 97 of the number n with a text more. Of an odd number of characters the first is read by itself.
fn run(table: &[u8; 970], n: usize, s: &[u8]) -> usize
    requires { (remainders 0 table.now ≡ true) × (n < 97) }
    ensures { result ≡ numeral n s.now % 97 }
{
    if s.len() % 2 == 1 {
        return run_by_two(table, stepped(table, n, s[0]), &s[1..]);
    }
    run_by_two(table, n, s)
}

// What `remainder_after` answers, by the table.
pub fn remainder_after_by_table(n: u64, s: &[u8]) -> u64
    ensures { result ≡ numeral n s.now % 97 }
{
    let table = steps();
    run(&table, (n % 97) as usize, s) as u64
}

// What `remainder97` answers, by a table that is lent.
fn remainder97_by(table: &[u8; 970], s: &[u8]) -> u64
    requires { remainders 0 table.now ≡ true }
    ensures { result ≡ remainder97 s.now }
{
    if s.len() < 4 {
        return run(table, 0, s) as u64;
    }
    let r = run(table, 0, &s[4..]);
    run_by_two(table, r, &s[0..4]) as u64
}

// The remainder by 97 of a text, its first four characters moved to its end, by a table of its own.
pub fn remainder97_by_table(s: &[u8]) -> u64
    ensures { result ≡ remainder97 s.now }
{
    let table = steps();
    remainder97_by(&table, s)
}

// The number of a text's pair of check digits, its third and fourth characters.
fn pair_number(s: &[u8]) -> u64
    requires { 4 ≤ length s.now }
    ensures { result ≡ numeral 0 (pair s.now) }
{
    extended(value(s[2]), s[3])
}

// Whether the two check digits of an IBAN or of a creditor reference are right: 02 to 98, and the remainder is 1. With
// 00, 01 or 99 it is 1 too, where 97, 98 or 02 is due.
pub fn checks97(s: &[u8]) -> bool
    ensures { result ≡ checks97 s.now }
{
    if s.len() < 4 {
        return false;
    }
    let p = pair_number(s);
    (2 <= p) & (p <= 98) & (remainder97_by_table(s) == 1)
}

// The number that up to 18 digits stand for, which 64 bits hold.
pub fn decimal(s: &[u8]) -> u64
    requires { (every digit s.now ≡ true) × (length s.now ≤ 18) }
    ensures { result ≡ numeral 0 s.now }
{
    let mut n: u64 = 0;
    for x in s {
        n = 10 * n + wide_digit(*x) as u64;
    }
    n
}

// Whether a text's two check digits are right, if the two letters before them stand for the number `letters`, and the
// characters behind them for the number `rest`. The remainder is taken twice, and not at each character.
pub fn checks97_with(s: &[u8], letters: u64, rest: u64) -> bool
    requires in_bounds { 4 ≤ length s.now }
    requires s_value { (every capital (take 2 s.now) ≡ true) × (every digit (pair s.now) ≡ true) }
    requires letters_value { (letters ≡ numeral 0 (take 2 s.now)) × (rest ≡ numeral 0 (drop 4 s.now)) }
    ensures { result ≡ checks97 s.now }
{
    let p = (10 * wide_digit(s[2]) + wide_digit(s[3])) as u64;
    (2 <= p) & (p <= 98) & ((1000000 * (rest % 97) + 100 * letters + p) % 97 == 1)
}
