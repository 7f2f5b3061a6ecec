// References and accounts of our own, made from their parts, with the check digits that are due.

#![tactic(auto)]

ghost use Rattle.std.specs.Prelude.{◌≡◌, ◌+◌, ◌≤◌, length};
ghost use Rattle.making.specs.Made.{qrr_part, laid_at, with_pair_set, HasRoom, Parts, scor_part, iban_parts};
ghost use Rattle.making.specs.Making.{IsQrrMade, IsPairLaid, IsPairMade, IsScorMade, IsIbanMade};

use mod10::check_digit_of_digits;
use mod97::remainder97;
use runs::{Kind, every, lay, same};
use sieve::{Fault, Written};
use swiss::Edition;

// Copies a part into the destination, at a place where there is room for it.
fn lay_at(dest: &mut [u8], at: usize, part: &[u8])
    requires { at + length part.now ≤ length dest.old }
    ensures { dest.new ≡ laid_at at part.now dest.old }
{
    lay(&mut dest[at..], part);
}

// 26 digits, not all zero. The length is asked first: of a known number of bytes the compiler asks 16 at once.
fn qrr_part(s: &[u8]) -> bool
    ensures { result ≡ qrr_part s.now }
{
    if s.len() != 26 {
        return false;
    }
    every(Kind::Digit, s) & !every(Kind::Zero, s)
}

// A QR reference from its first 26 digits.
pub fn make_qrr(digits: &[u8], dest: &mut [u8]) -> Written
    ensures { IsQrrMade digits dest result }
{
    if qrr_part(digits) {
        if dest.len() < 27 {
            return Err(Fault::NoRoom);
        }
        let last = [check_digit_of_digits(digits)];
        lay_at(dest, 0, digits);
        lay_at(dest, 26, &last);
        return Ok(27);
    }
    Err(Fault::BadForm(0))
}

// Puts the pair that is due in the place of the pair 00. The remainder by 97 is that of the rest, the head and 00.
fn set_pair(text: &mut [u8])
    requires { 4 ≤ length text.old }
    ensures { text.new ≡ with_pair_set text.old }
{
    let pair = 98 - remainder97(text);
    text[2] = 48 + (pair / 10) as u8;
    text[3] = 48 + (pair % 10) as u8;
}

// Lays a head, the pair that is due and a rest of two parts in the front of a destination that has room for them. The head
// is two characters, which the compiler copies at once where it sees their number.
fn lay_with_pair(head: &[u8], first: &[u8], second: &[u8], dest: &mut [u8])
    requires { HasRoom head.now first.now second.now dest.old }
    ensures { IsPairLaid head first second dest }
{
    let second_at = 4 + first.len();
    let end = second_at + second.len();
    lay_at(dest, 0, &head[0..2]);
    lay_at(dest, 2, b"00");
    lay_at(dest, 4, first);
    lay_at(dest, second_at, second);
    set_pair(&mut dest[0..end]);
}

// Makes a number with a pair from parts of the right form, if there is room.
fn make_with_pair(head: &[u8], first: &[u8], second: &[u8], dest: &mut [u8]) -> Written
    requires { Parts head.now first.now second.now }
    ensures { IsPairMade head first second dest result }
{
    let n = 4 + first.len() + second.len();
    if dest.len() < n {
        return Err(Fault::NoRoom);
    }
    lay_with_pair(head, first, second, dest);
    Ok(n)
}

// 1 to 21 of A-Z a-z 0-9.
fn scor_part(s: &[u8]) -> bool
    ensures { result ≡ scor_part s.now }
{
    (1 <= s.len()) & (s.len() <= 21) & every(Kind::Alphanumeric, s)
}

// A creditor reference from what follows its pair. Letters stay as they are, small or not.
pub fn make_scor(reference: &[u8], dest: &mut [u8]) -> Written
    ensures { IsScorMade reference dest result }
{
    if scor_part(reference) {
        return make_with_pair(&Edition::CREDITOR_MARK, reference, b"", dest);
    }
    Err(Fault::BadForm(0))
}

// CH or LI; five digits; twelve of 0-9 A-Z. The lengths are asked first: of a known number of bytes the compiler asks 16 at
// once.
fn iban_parts(country: &[u8], iid: &[u8], account: &[u8]) -> bool
    ensures { result ≡ iban_parts country.now iid.now account.now }
{
    if iid.len() != 5 {
        return false;
    }
    if account.len() != 12 {
        return false;
    }
    (same(country, &Edition::SWITZERLAND) | same(country, &Edition::LIECHTENSTEIN))
        & every(Kind::Digit, iid)
        & every(Kind::DigitOrCapital, account)
}

// An IBAN from its country, its IID and the account at that bank.
pub fn make_iban(country: &[u8], iid: &[u8], account: &[u8], dest: &mut [u8]) -> Written
    ensures { IsIbanMade country iid account dest result }
{
    if iban_parts(country, iid, account) {
        return make_with_pair(country, iid, account, dest);
    }
    Err(Fault::BadForm(0))
}
