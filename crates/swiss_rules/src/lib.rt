// The rules about a bill's lines, group by group of lines, in the order of the sieve. A group takes the lines that it is
// about; those of seven lines are `swiss_address`'s. Once a rule is broken, later groups are left out.

#![tactic(auto, unfolding(findings::specs::Findings::finds))]

ghost use Rattle.std.specs.Prelude.{true, [], ◌∷◌, ◌≡◌, length};
ghost use Rattle.sieve.specs.Lines.{cut, lines_of};
ghost use Rattle.sieve.specs.Mod97.{checks97};
ghost use Rattle.sieve.specs.Mod10.{checks10};
ghost use Rattle.swiss.specs.Forms.{iban, qrr, scor};
ghost use Rattle.swiss.specs.Swiss.{header, account, payment, reference, information, procedures, paired};
ghost use Rattle.swiss.specs.Swiss.{pairing, together, rules};
ghost use Rattle.findings.specs.Findings.{finds, from};
ghost use Rattle.swiss_rules.specs.Parts.{number_found, HasAccount, reference_of, information_lines, front, middle, back};

use findings::{at_most, checked, empty, filled, fixed, formed, rule};
use mod10::checks10;
use mod97::checks97;
use places::Payload;
use runs::{longer_together, same};
use sieve::Fault;
use swiss::Edition;
use swiss_address::{address, address_if_any, text, vacant};

// Lines 1 to 3.
pub fn header(kind: &[u8], version: &[u8], coding: &[u8]) -> Result<(), Fault>
    ensures { result ≡ finds header (kind.now ∷ version.now ∷ coding.now ∷ []) }
{
    fixed(kind, 1, &Edition::QR_TYPE)?;
    fixed(version, 2, &Edition::VERSION)?;
    fixed(coding, 3, &Edition::CODING)
}

// The number on line n, an account's or a reference's: not empty, of its form and with right check digits.
fn number_found(l: &[u8], n: usize, form: bool, check: bool) -> Result<(), Fault>
    ensures { result ≡ number_found l.now n form check }
{
    filled(l, n, true)?;
    formed(l, n, form)?;
    checked(n, check)
}

// Line 4. Most accounts have digits alone, and are right. It is inlined: by a call, whose answer lies in memory, a reading
// took 31 instructions and 96 bytes of stack more.
#[inline(always)]
pub fn account(l: &[u8]) -> Result<(), Fault>
    ensures { result ≡ finds account (from 4 (l.now ∷ [])) }
{
    if swiss_forms::iban_right(l) {
        return Ok(());
    }
    number_found(l, 4, swiss_forms::iban(l), checks97(l))
}

// Lines 19 and 20. Most bills are in CHF.
fn payment(amount: &[u8], currency: &[u8]) -> Result<(), Fault>
    ensures { result ≡ finds payment (from 19 (amount.now ∷ currency.now ∷ [])) }
{
    at_most(amount, 19, Edition::AMOUNT_MOST)?;
    formed(amount, 19, swiss_forms::amount(amount))?;
    if same(currency, &Edition::FRANCS) {
        return Ok(());
    }
    filled(currency, 20, true)?;
    formed(currency, 20, same(currency, &Edition::EUROS))
}

// Line 29 under QRR.
fn qr_reference(l: &[u8]) -> Result<(), Fault>
    ensures { result ≡ finds (reference_of qrr checks10) (from 29 (l.now ∷ [])) }
{
    number_found(l, 29, swiss_forms::qrr(l), checks10(l))
}

// Line 29 under SCOR. Most references have digits alone, and are right.
fn creditor_reference(l: &[u8]) -> Result<(), Fault>
    ensures { result ≡ finds (reference_of scor checks97) (from 29 (l.now ∷ [])) }
{
    if swiss_forms::scor_right(l) {
        return Ok(());
    }
    number_found(l, 29, swiss_forms::scor(l), checks97(l))
}

// Lines 28 and 29.
fn reference(kind: &[u8], l: &[u8]) -> Result<(), Fault>
    ensures { result ≡ finds reference (from 28 (kind.now ∷ l.now ∷ [])) }
{
    if same(kind, &Edition::CREDITOR_REFERENCE) {
        return creditor_reference(l);
    }
    if same(kind, &Edition::QR_REFERENCE) {
        return qr_reference(l);
    }
    if same(kind, &Edition::NO_REFERENCE) {
        return empty(l, 29, true);
    }
    filled(kind, 28, true)?;
    formed(kind, 28, false)
}

// Lines 30 to 32.
fn information(message: &[u8], trailer: &[u8], billing: &[u8]) -> Result<(), Fault>
    ensures { result ≡ finds information (from 30 (information_lines message trailer billing)) }
{
    at_most(message, 30, Edition::MESSAGE_MOST)?;
    fixed(trailer, 31, &Edition::TRAILER)?;
    at_most(billing, 32, Edition::BILLING_MOST)?;
    formed(billing, 32, swiss_forms::billing(billing))
}

// QRR stands exactly with a QR-IBAN, and only with CHF where the edition does not permit EUR.
fn paired(account: &[u8], currency: &[u8], kind: &[u8], edition: Edition) -> bool
    requires { iban account.now ≡ true }
    ensures { result ≡ paired edition account.now currency.now kind.now }
{
    let qr = swiss_forms::qr_iban(account);
    if same(kind, &Edition::QR_REFERENCE) {
        qr & (edition.permits_qrr_in_euros() | same(currency, &Edition::FRANCS))
    } else {
        !qr
    }
}

// Lines that go together, of a bill whose account is an IBAN.
fn together(bill: &Payload, edition: Edition) -> Result<(), Fault>
    requires { HasAccount bill.now }
    ensures { result ≡ finds (pairing edition ∷ together ∷ []) (lines_of (cut bill.now)) }
{
    let pair = paired(bill.line(4), bill.line(20), bill.line(28), edition);
    rule(!pair, Fault::Unpaired(28))?;
    let message = bill.line(30);
    let billing = bill.line(32);
    let long = longer_together(message, billing, Edition::TOGETHER_MOST);
    rule(long, Fault::TooLongTogether(32))
}

// Lines 1 to 11.
#[tactic(auto, using(crate::proofs::Groups::of_front))]
fn front(bill: &Payload, edition: Edition) -> Result<(), Fault>
    ensures { result ≡ finds (front edition) (lines_of (cut bill.now)) }
{
    header(bill.line(1), bill.line(2), bill.line(3))?;
    account(bill.line(4))?;
    address(bill, 5, edition)
}

// Lines 12 to 27.
#[tactic(auto, using(crate::proofs::Groups::of_middle))]
fn middle(bill: &Payload, edition: Edition) -> Result<(), Fault>
    ensures { result ≡ finds (middle edition) (lines_of (cut bill.now)) }
{
    vacant(bill, 12)?;
    payment(bill.line(19), bill.line(20))?;
    address_if_any(bill, 21, edition)
}

// Lines 33 and 34, of a bill of so many lines. Most have neither.
fn procedures(bill: &Payload, count: usize) -> Result<(), Fault>
    requires { count ≡ length (lines_of (cut bill.now)) }
    ensures { result ≡ finds procedures (lines_of (cut bill.now)) }
{
    if count < 33 {
        return Ok(());
    }
    text(bill.line(33), 33, count == 33, Edition::PROCEDURE_MOST)?;
    text(bill.line(34), 34, count == 34, Edition::PROCEDURE_MOST)
}

// Lines 28 to 34, of a bill of so many lines whose account is an IBAN, and those that go together.
#[tactic(auto, using(crate::proofs::Groups::of_back), unfolding(findings::specs::Findings::finds))]
fn back(bill: &Payload, count: usize, edition: Edition) -> Result<(), Fault>
    requires { (count ≡ length (lines_of (cut bill.now))) × HasAccount bill.now }
    ensures { result ≡ finds (back edition) (lines_of (cut bill.now)) }
{
    reference(bill.line(28), bill.line(29))?;
    information(bill.line(30), bill.line(31), bill.line(32))?;
    procedures(bill, count)?;
    together(bill, edition)
}

// All rules about lines of an edition, in the order of the sieve.
#[tactic(auto, using(crate::proofs::Groups::of_all, crate::proofs::Groups::account_formed))]
pub fn rules(bill: &Payload, count: usize, edition: Edition) -> Result<(), Fault>
    requires { count ≡ length (lines_of (cut bill.now)) }
    ensures { result ≡ finds (rules edition) (lines_of (cut bill.now)) }
{
    front(bill, edition)?;
    middle(bill, edition)?;
    back(bill, count, edition)
}
