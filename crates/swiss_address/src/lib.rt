// The rules about the seven lines of an address, in the order of the sieve: of one that is there, of type S or K, and of
// one that is absent, whose lines are empty. Each line is taken out of the payload by the walk's list.

#![tactic(auto, unfolding(findings::specs::Findings::finds))]

ghost use Rattle.std.specs.Prelude.{◌++◌, ◌≡◌, ◌≤◌};
ghost use Rattle.sieve.specs.Lines.{cut, lines_of};
ghost use Rattle.sieve.specs.Rules.{is_empty, never};
ghost use Rattle.swiss.specs.Swiss.{address};
ghost use Rattle.findings.specs.Findings.{finds};
ghost use Rattle.swiss_address.specs.Addresses.{text_found, addressee, locality, address_lines, country_alone, vacant};

use findings::{at_most, empty, filled, formed};
use places::Payload;
use runs::same;
use sieve::Fault;
use swiss::Edition;

// A line of at most so many characters, which is not empty when that is asked: a name, a town, a procedure.
pub fn text(l: &[u8], n: usize, when: bool, most: usize) -> Result<(), Fault>
    ensures { result ≡ text_found l.now n when most }
{
    filled(l, n, when)?;
    at_most(l, n, most)
}

// The first four lines of an address that is there, from line n on: type, name, street, house number.
fn addressee(bill: &Payload, n: usize) -> Result<(), Fault>
    requires { (1 ≤ n) × (n ≤ 28) }
    ensures { result ≡ finds (addressee n) (lines_of (cut bill.now)) }
{
    let second = n + 1;
    let third = n + 2;
    let fourth = n + 3;
    let kind = bill.line(n);
    filled(kind, n, true)?;
    formed(kind, n, same(kind, &Edition::STRUCTURED))?;
    text(bill.line(second), second, true, Edition::NAME_MOST)?;
    at_most(bill.line(third), third, Edition::STREET_MOST)?;
    at_most(bill.line(fourth), fourth, Edition::HOUSE_NUMBER_MOST)
}

// The other three: postcode, town, country.
fn locality(bill: &Payload, n: usize) -> Result<(), Fault>
    requires { (1 ≤ n) × (n ≤ 28) }
    ensures { result ≡ finds (locality n) (lines_of (cut bill.now)) }
{
    let fifth = n + 4;
    let sixth = n + 5;
    let seventh = n + 6;
    text(bill.line(fifth), fifth, true, Edition::POSTCODE_MOST)?;
    text(bill.line(sixth), sixth, true, Edition::TOWN_MOST)?;
    let country = bill.line(seventh);
    filled(country, seventh, true)?;
    formed(country, seventh, swiss_forms::country(country))
}

// An address of type K behind its type, from line n on: name and two address lines.
fn address_lines(bill: &Payload, n: usize) -> Result<(), Fault>
    requires { (1 ≤ n) × (n ≤ 28) }
    ensures { result ≡ finds (address_lines n) (lines_of (cut bill.now)) }
{
    let second = n + 1;
    let third = n + 2;
    let fourth = n + 3;
    text(bill.line(second), second, true, Edition::NAME_MOST)?;
    at_most(bill.line(third), third, Edition::ADDRESS_LINE_MOST)?;
    let last = bill.line(fourth);
    text(last, fourth, true, Edition::ADDRESS_LINE_MOST)
}

// The other three lines of type K: no postcode, no town, country.
fn country_alone(bill: &Payload, n: usize) -> Result<(), Fault>
    requires { (1 ≤ n) × (n ≤ 28) }
    ensures { result ≡ finds (country_alone n) (lines_of (cut bill.now)) }
{
    let fifth = n + 4;
    let sixth = n + 5;
    let seventh = n + 6;
    empty(bill.line(fifth), fifth, true)?;
    empty(bill.line(sixth), sixth, true)?;
    let country = bill.line(seventh);
    filled(country, seventh, true)?;
    formed(country, seventh, swiss_forms::country(country))
}

// An address of type K, from line n on.
fn combined(bill: &Payload, n: usize) -> Result<(), Fault>
    requires { (1 ≤ n) × (n ≤ 28) }
    ensures { result ≡ finds (address_lines n ++ country_alone n) (lines_of (cut bill.now)) }
{
    address_lines(bill, n)?;
    country_alone(bill, n)
}

// Seven lines from line n on that must be empty.
#[tactic(auto, using(crate::proofs::Addresses::one_more, crate::proofs::Addresses::no_more))]
pub fn vacant(bill: &Payload, n: usize) -> Result<(), Fault>
    requires { (1 ≤ n) × (n ≤ 28) }
    ensures { result ≡ finds (vacant n) (lines_of (cut bill.now)) }
{
    for i in n..n + 7 {
        empty(bill.line(i), i, true)?;
    }
    Ok(())
}

// The seven lines of an address of type S, from line n on.
fn structured(bill: &Payload, n: usize) -> Result<(), Fault>
    requires { (1 ≤ n) × (n ≤ 28) }
    ensures { result ≡ finds (addressee n ++ locality n) (lines_of (cut bill.now)) }
{
    addressee(bill, n)?;
    locality(bill, n)
}

// The seven lines of an address that must be there, from line n on. Most are of type S: K is asked for only where S's
// rules are broken.
pub fn address(bill: &Payload, n: usize, edition: Edition) -> Result<(), Fault>
    requires { (1 ≤ n) × (n ≤ 28) }
    ensures { result ≡ finds (address edition n never) (lines_of (cut bill.now)) }
{
    let Err(fault) = structured(bill, n) else {
        return Ok(());
    };
    let letter = bill.line(n);
    if edition.permits_combined() & same(letter, &Edition::COMBINED) {
        return combined(bill, n);
    }
    Err(fault)
}

// The seven lines of an address that may be absent: it is where its first line is empty, and then all are.
pub fn address_if_any(bill: &Payload, n: usize, edition: Edition) -> Result<(), Fault>
    requires { (1 ≤ n) × (n ≤ 28) }
    ensures { result ≡ finds (address edition n (is_empty n)) (lines_of (cut bill.now)) }
{
    let kind = bill.line(n);
    if kind.len() == 0 {
        return vacant(bill, n);
    }
    address(bill, n, edition)
}
