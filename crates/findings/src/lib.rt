// What a rule about a line answers: its fault, if the line breaks it. One function for each kind of rule, so that a caller
// goes on behind it by `?`, and the first fault is the answer.

#![tactic(auto)]

ghost use Rattle.std.specs.Prelude.{◌&&◌, not, ◌≡◌, ltb};
ghost use Rattle.sieve.specs.Bytes.{same};
ghost use Rattle.sieve.specs.Characters.{characters};
ghost use Rattle.sieve.specs.Rules.{no_text};
ghost use Rattle.sieve.specs.declared.Fault.TheVariants.{NotFixedText, NotEmpty, Missing, TooLong, BadForm, BadCheckDigits};
ghost use Rattle.findings.specs.Findings.{unless};

use runs::{longer, same};
use sieve::Fault;

// One rule: its fault, where it is broken.
pub fn rule(broken: bool, fault: Fault) -> Result<(), Fault>
    ensures { result ≡ unless broken fault }
{
    if broken {
        return Err(fault);
    }
    Ok(())
}

// Line n is a fixed text.
pub fn fixed(l: &[u8], n: usize, text: &[u8]) -> Result<(), Fault>
    ensures { result ≡ unless (not (same l.now text.now)) (NotFixedText n) }
{
    rule(!same(l, text), Fault::NotFixedText(n))
}

// Line n is empty, when that is asked.
pub fn empty(l: &[u8], n: usize, when: bool) -> Result<(), Fault>
    ensures { result ≡ unless (when && not (no_text l.now)) (NotEmpty n) }
{
    rule(when & !(l.len() == 0), Fault::NotEmpty(n))
}

// Line n is not empty, when that is asked.
pub fn filled(l: &[u8], n: usize, when: bool) -> Result<(), Fault>
    ensures { result ≡ unless (when && no_text l.now) (Missing n) }
{
    rule(when & (l.len() == 0), Fault::Missing(n))
}

// Line n has at most so many characters.
pub fn at_most(l: &[u8], n: usize, most: usize) -> Result<(), Fault>
    ensures { result ≡ unless (ltb most (characters l.now)) (TooLong n) }
{
    rule(longer(l, most), Fault::TooLong(n))
}

// Line n is empty or of its form.
pub fn formed(l: &[u8], n: usize, right: bool) -> Result<(), Fault>
    ensures { result ≡ unless (not (no_text l.now) && not right) (BadForm n) }
{
    rule(!(l.len() == 0) & !right, Fault::BadForm(n))
}

// Line n has its check digits.
pub fn checked(n: usize, right: bool) -> Result<(), Fault>
    ensures { result ≡ unless (not right) (BadCheckDigits n) }
{
    rule(!right, Fault::BadCheckDigits(n))
}
