// Whose account a payload names, at a glance: by its first 37 bytes, and by whether there are more.

#![tactic(auto)]

ghost use Rattle.std.specs.Prelude.{◌≡◌, ◌+◌, ◌≤◌, length, drop};
ghost use Rattle.glance.specs.FixedLines.{gone_past, fourth_start, IsTold, ends_with};
ghost use Rattle.glance.specs.Glance.{look, glance, account_as};

use lines::Place;
use swiss::Edition;
use swiss_rules::account;

// How many bytes are looked at: lines 1 to 4 of any bill, with the break after them.
const LOOKED: usize = 37;

// No fewer bytes hold lines 1 to 4: 3, 4, 1 and 21 bytes, and three breaks.
const FEWEST: usize = 32;

// Where the bytes go on behind this text, if it stands at `from` with a break after it. No line is searched for:
// the first other byte is the answer. Byte by byte, and not by `==`, which compares four bytes twice.
fn gone_past(s: &[u8], from: usize, text: &[u8]) -> Option<usize>
    requires { from + length text.now + 2 ≤ length s.now }
    ensures { IsTold (gone_past text.now from (drop from s.now)) result }
{
    for (i, x) in text.iter().enumerate() {
        if s[from + i] != *x {
            return None;
        }
    }
    let end = from + text.len();
    if s[end] == b'\n' {
        return Some(end + 1);
    }
    if (s[end] == b'\r') & (s[end + 1] == b'\n') {
        return Some(end + 2);
    }
    None
}

// Where line 4 starts, if lines 1 to 3 are the fixed texts and a break ends each. Where one of the three is another or the
// last, a rule for lines 1 to 4 is broken.
fn fourth_start(head: &[u8]) -> Option<usize>
    requires { 14 ≤ length head.now }
    ensures { IsTold (fourth_start head.now) result }
{
    let second = gone_past(head, 0, &Edition::QR_TYPE)?;
    let third = gone_past(head, second, &Edition::VERSION)?;
    gone_past(head, third, &Edition::CODING)
}

// Whether a line ends at a place: a break stands there; or the bytes end there, and there are no more.
fn ends_at(head: &[u8], at: usize, more: bool) -> bool
    requires { at ≤ length head.now }
    ensures { result ≡ ends_with (drop at head.now) more }
{
    if at == head.len() {
        return !more;
    }
    if head[at] == 10 {
        return true;
    }
    if at + 1 == head.len() {
        return false;
    }
    (head[at] == 13) & (head[at + 1] == 10)
}

// Line 4 of these bytes, if lines 1 to 4 are whole and break none of their rules. No line is searched for: behind the three
// fixed lines 21 bytes are an IBAN or not, and where they are, no break is among them, so that line 4 ends behind them or is
// longer.
fn look(head: &[u8], more: bool) -> Option<Place>
    ensures { result ≡ account_as (look head.now more) }
{
    if head.len() < FEWEST {
        return None;
    }
    let start = fourth_start(head)?;
    let end = start + Edition::IBAN_LENGTH;
    if head.len() < end {
        return None;
    }
    let found = account(&head[start..end]);
    if found.is_ok() & ends_at(head, end, more) {
        return Some(Place {
            start,
            bytes: Edition::IBAN_LENGTH,
        });
    }
    None
}

// Where the IBAN stands, or `None` where it is not known. No byte after the 37th is looked at, so that the cost does not grow with
// the payload.
pub fn glance(payload: &[u8]) -> Option<Place>
    ensures { result ≡ account_as (glance payload.now) }
{
    let more = LOOKED < payload.len();
    let end = if more { LOOKED } else { payload.len() };
    look(&payload[0..end], more)
}
