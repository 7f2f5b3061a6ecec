// The rules about a girocode's lines, group by group of lines, in the order of the sieve. Once a rule is broken, later
// groups are left out.

#![tactic(auto, unfolding(findings::specs::Findings::finds))]

ghost use Rattle.std.specs.Prelude.{cond, ◌≡◌, ltb, length};
ghost use Rattle.sieve.specs.Characters.{characters};
ghost use Rattle.sieve.specs.Lines.{cut, lines_of};
ghost use Rattle.girocode.specs.Coding.{read_as_iso};
ghost use Rattle.girocode.specs.Girocode.{header, receiver, payment, rules};
ghost use Rattle.findings.specs.Findings.{finds};
ghost use Rattle.giro_rules.specs.Parts.{header_lines, back};

use findings::{checked, filled, fixed, formed, rule};
use girocode::limits;
use mod97::checks97;
use places::Payload;
use runs::{longer, same};
use sieve::Fault;

// Lines 1 to 4.
pub fn header(tag: &[u8], version: &[u8], coding: &[u8], function: &[u8]) -> Result<(), Fault>
    ensures { result ≡ finds header (header_lines tag version coding function) }
{
    fixed(tag, 1, &limits::SERVICE_TAG)?;
    let known = same(version, &limits::VERSION_001) | same(version, &limits::VERSION_002);
    rule(!known, Fault::NotFixedText(2))?;
    let unread = giro_forms::unread_coding(coding);
    let read = same(coding, &limits::UTF_8) | same(coding, &limits::ISO_8859_1);
    rule(!(read | unread), Fault::NotFixedText(3))?;
    rule(unread, Fault::UnreadCoding(3))?;
    fixed(function, 4, &limits::CREDIT_TRANSFER)
}

// A line is longer than so many characters: under ISO 8859-1 every byte is one.
fn too_long(l: &[u8], most: usize, iso: bool) -> bool
    ensures { result ≡ ltb most (cond iso (length l.now) (characters l.now)) }
{
    if iso { most < l.len() } else { longer(l, most) }
}

// Lines 5 to 7.
fn receiver(code: &Payload, iso: bool) -> Result<(), Fault>
    requires { iso ≡ read_as_iso (lines_of (cut code.now)) }
    ensures { result ≡ finds receiver (lines_of (cut code.now)) }
{
    let version = code.line(2);
    let bic = code.line(5);
    filled(bic, 5, same(version, &limits::VERSION_001))?;
    formed(bic, 5, giro_forms::bic(bic))?;
    let name = code.line(6);
    filled(name, 6, true)?;
    rule(too_long(name, limits::NAME_MOST, iso), Fault::TooLong(6))?;
    let iban = code.line(7);
    filled(iban, 7, true)?;
    formed(iban, 7, giro_forms::iban(iban))?;
    checked(7, checks97(iban))
}

// Lines 8 and 9, of a payload of so many lines.
fn payment(code: &Payload, count: usize, iso: bool) -> Result<(), Fault>
    requires { (iso ≡ read_as_iso (lines_of (cut code.now))) × (count ≡ length (lines_of (cut code.now))) }
    ensures { result ≡ finds payment (lines_of (cut code.now)) }
{
    let amount = code.line(8);
    filled(amount, 8, count == 8)?;
    formed(amount, 8, giro_forms::amount(amount))?;
    let purpose = code.line(9);
    filled(purpose, 9, count == 9)?;
    rule(
        too_long(purpose, limits::PURPOSE_MOST, iso),
        Fault::TooLong(9),
    )?;
    formed(purpose, 9, giro_forms::basic(purpose))
}

// Lines 10 to 12, of a payload of so many lines; then reference and text, which are not both filled.
fn information(code: &Payload, count: usize, iso: bool) -> Result<(), Fault>
    requires { (iso ≡ read_as_iso (lines_of (cut code.now))) × (count ≡ length (lines_of (cut code.now))) }
    ensures { result ≡ finds back (lines_of (cut code.now)) }
{
    let reference = code.line(10);
    filled(reference, 10, count == 10)?;
    rule(
        too_long(reference, limits::REFERENCE_MOST, iso),
        Fault::TooLong(10),
    )?;
    formed(reference, 10, giro_forms::basic(reference))?;
    let text = code.line(11);
    filled(text, 11, count == 11)?;
    rule(too_long(text, limits::TEXT_MOST, iso), Fault::TooLong(11))?;
    let display = code.line(12);
    filled(display, 12, count == 12)?;
    rule(
        too_long(display, limits::DISPLAY_MOST, iso),
        Fault::TooLong(12),
    )?;
    rule(
        !(reference.len() == 0) & !(text.len() == 0),
        Fault::Unpaired(11),
    )
}

// All rules about lines, in the order of the sieve, of a payload of so many lines, in ISO 8859-1 or not.
#[tactic(auto, using(crate::proofs::Groups::of_all))]
pub fn rules(code: &Payload, count: usize, iso: bool) -> Result<(), Fault>
    requires { (iso ≡ read_as_iso (lines_of (cut code.now))) × (count ≡ length (lines_of (cut code.now))) }
    ensures { result ≡ finds rules (lines_of (cut code.now)) }
{
    header(code.line(1), code.line(2), code.line(3), code.line(4))?;
    receiver(code, iso)?;
    payment(code, count, iso)?;
    information(code, count, iso)
}
