// A morning's pile: bills that lie in one buffer, each judged, and an entry for each.

#![tactic(auto)]

ghost use Rattle.std.specs.Prelude.{◌≡◌, ◌*◌, ◌≤◌, length};
ghost use Rattle.sieve.specs.Bytes.{over};
ghost use Rattle.sieve.specs.Options.{answered};
ghost use Rattle.sieve.specs.Paper.{paper};
ghost use Rattle.sieve.specs.Verdict.{first, verdict};
ghost use Rattle.swiss.specs.Swiss.{swiss_in};
ghost use Rattle.joining.specs.Handing.{Within};
ghost use Rattle.pile.specs.Pile.{bill_at, bills_outside, bills_findings, bills_numbers, AreGathered};
ghost use Rattle.pile.specs.Pile.{paper_piled, bill_numbers, FitsEntry, IsPiledTo};

use sieve::{Answer, Fault, WALK_NUMBERS, line_of, number_of};
use swiss::Edition;
use swiss_judge::judge_in;

const MOST_BILLS: usize = 500;

// Bills that are handed over: the first `count` pairs of the list say where each lies in the buffer.
#[derive(Clone, Copy)]
pub struct Bills<'a> {
    pub buffer: &'a [u8],
    pub places: &'a [u32],
    pub count: usize,
}

impl<'a> Bills<'a> {
    // The bill that pair i of the list, counted from 0, gives of the buffer.
    pub fn bill(self, i: usize) -> &'a [u8]
        requires { Within self.buffer.now self.places.now i }
        ensures { result.now ≡ bill_at self.entry i }
    {
        let start = self.places[2 * i] as usize;
        let end = start + self.places[2 * i + 1] as usize;
        &self.buffer[start..end]
    }

    // The position of the first bill whose place lies outside the buffer, counted from 1.
    fn first_outside(self) -> Option<usize>
        requires { 2 * self.count ≤ length self.places.now }
        ensures { result ≡ answered (bills_outside self.entry) }
    {
        for i in 0..self.count {
            let start = self.places[2 * i] as usize;
            let bytes = self.places[2 * i + 1] as usize;
            if self.buffer.len() < start + bytes {
                return Some(i + 1);
            }
        }
        None
    }

    // Asks for the count of a pile and for its places: each bill lies in the buffer.
    pub fn gather_bills(self) -> Result<(), Fault>
        ensures { paper_piled result ≡ first (bills_findings self.entry) }
    {
        if MOST_BILLS < self.count {
            return Err(Fault::LineCount(0));
        }
        if self.places.len() < 2 * self.count {
            return Err(Fault::LineCount(0));
        }
        match self.first_outside() {
            Some(i) => Err(Fault::OutsideText(i)),
            None => Ok(()),
        }
    }
}

// Puts a bill's answer into its own part of the list.
fn lay_entry(part: &mut [u16], answer: Answer)
    requires { (length part.old ≡ 2) × FitsEntry (paper answer) }
    ensures { part.new ≡ bill_numbers (paper answer) }
{
    match answer {
        Ok((n, _)) => {
            part[0] = 0;
            part[1] = n as u16;
        }
        Err(f) => {
            part[0] = number_of(f) as u16;
            part[1] = line_of(f) as u16;
        }
    }
}

// Judges a bill, and puts its answer into its own part of the list.
fn judge_bill(bill: &[u8], edition: Edition, part: &mut [u16])
    requires { length part.old ≡ 2 }
    ensures { part.new ≡ bill_numbers (verdict (swiss_in edition) bill.now) }
{
    let mut lines = [0; WALK_NUMBERS];
    let answer = judge_in(bill, &mut lines, edition);
    lay_entry(part, answer);
}

// Such bills once they are gathered: they are no more than a pile may have, and each lies in the buffer.
#[derive(Clone, Copy)]
pub struct Gathered<'a> {
    pub bills: Bills<'a>,
    pub ghost gathered: { AreGathered bills },
}

impl<'a> Gathered<'a> {
    // Judges bill after bill. One bill's answer says nothing about another's.
    fn judge_all(self, edition: Edition, answers: &mut [u16])
        requires { 2 * self.bills.count ≤ length answers.old }
        ensures { answers.new ≡ over answers.old (bills_numbers edition self.entry.bills) }
    {
        for i in 0..self.bills.count {
            let at = 2 * i;
            let next = at + 2;
            judge_bill(self.bills.bill(i), edition, &mut answers[at..next]);
        }
    }
}

// Judges under an edition the bills that the first `count` places give of the buffer, and puts an entry for each into
// the front of the list: 0 and the line count of an accepted bill, or the refusal's number and line. A refusal of the
// pile changes no number.
pub fn pile(
    buffer: &[u8],
    places: &[u32],
    count: usize,
    edition: Edition,
    answers: &mut [u16],
) -> Result<(), Fault>
    ensures { IsPiledTo edition buffer places count answers result }
{
    let bills = Bills {
        buffer,
        places,
        count,
    };
    bills.gather_bills()?;
    if answers.len() < 2 * count {
        return Err(Fault::NoRoom);
    }
    Gathered { bills }.judge_all(edition, answers);
    Ok(())
}
