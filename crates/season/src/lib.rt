// Last season again: a recorded pile tried under both editions.

#![tactic(auto)]

ghost use Rattle.std.specs.Prelude.{cond, ◌≡◌, ◌+◌, ◌≤◌, ◌<◌, get_or, length, set};
ghost use Rattle.sieve.specs.Paper.{paper, paper_fault};
ghost use Rattle.swiss.specs.Cents.{cents};
ghost use Rattle.swiss.specs.Differing.{may_differ};
ghost use Rattle.pile.specs.Pile.{bill_numbers, bills_of};
ghost use Rattle.season.specs.Season.{apart, editions_differ, AmountLine, IsAccepted, IsOutcome};
ghost use Rattle.season.specs.Season.{AreTried, IsTried};

use mod97::decimal;
use pile::{Bills, Gathered};
use places::Payload;
use sieve::{Answer, Fault, WALK_NUMBERS, line_of, number_of};
use swiss::Edition;
use swiss_judge::judge_in;

// What is told of a season: how many positions are listed, and the sums in cents, of CHF and of EUR.
#[derive(Clone, Copy, Debug, PartialEq, Eq)]
pub struct Tried {
    pub listed: usize,
    pub francs: u64,
    pub euros: u64,
}

// What is told of one bill: whether the editions differ on it, and what it adds to each sum.
#[derive(Clone, Copy)]
struct Outcome {
    differs: bool,
    francs: u64,
    euros: u64,
}

// A verdict's number, 0 where it accepts.
fn number_in(answer: Answer) -> u32
    ensures { result ≡ get_or (bill_numbers (paper answer)) 0 0 }
{
    match answer {
        Ok(_) => 0,
        Err(f) => number_of(f),
    }
}

// A verdict's line, the line count where it accepts.
fn line_in(answer: Answer) -> usize
    ensures { result ≡ get_or (bill_numbers (paper answer)) 1 0 }
{
    match answer {
        Ok((n, _)) => n,
        Err(f) => line_of(f),
    }
}

// Whether number or line of two verdicts differs.
fn apart(old: Answer, new: Answer) -> bool
    ensures { result ≡ apart (paper old) (paper new) }
{
    !((number_in(old) == number_in(new)) & (line_in(old) == line_in(new)))
}

// The cents of line 19 of an accepted bill; 0 where it is empty.
fn cents(amount: &[u8]) -> u64
    requires { AmountLine amount.now }
    ensures { result ≡ cents amount.now }
{
    if amount.len() == 0 {
        return 0;
    }
    let point = amount.len() - 3;
    let behind = amount.len() - 2;
    100 * decimal(&amount[0..point]) + decimal(&amount[behind..])
}

// What a bill that 2.2 accepts adds to the sums. Line 20 is then CHF or EUR, so that its
// first letter tells which.
fn paid(bill: &Payload, differs: bool) -> Outcome
    requires { IsAccepted bill.now }
    ensures { IsOutcome bill.now differs result }
{
    let due = cents(bill.line(19));
    let currency = bill.line(20);
    if currency[0] == b'C' {
        return Outcome {
            differs,
            francs: due,
            euros: 0,
        };
    }
    Outcome {
        differs,
        francs: 0,
        euros: due,
    }
}

// Whether 2.2 may say something else of a bill that 2.4 refuses so. It takes an address of type K, which 2.4 refuses by
// 10 on line 5 or 21, the creditor's and the debtor's type; and QRR with EUR, which 2.4 refuses by 12.
fn may_differ(fault: Fault) -> bool
    ensures { result ≡ may_differ (paper_fault fault) }
{
    let number = number_of(fault);
    let at = line_of(fault);
    ((number == 10) & ((at == 5) | (at == 21))) | (number == 12)
}

// Tries a bill under both editions. What 2.4 accepts, 2.2 accepts too, with the same lines, and most of what 2.4 refuses
// it refuses alike: it is asked only of the rest, and where it accepts one of those, the two differ. The places are room
// to work in, made once for all bills.
fn try_bill(bill: &[u8], places: &mut [u16; WALK_NUMBERS]) -> Outcome
    ensures { IsOutcome bill.now (editions_differ bill.now) result }
{
    let new = judge_in(bill, places, Edition::V24);
    match new {
        Ok(_) => paid(&Payload::new(bill, places), false),
        Err(fault) => {
            if !may_differ(fault) {
                return Outcome {
                    differs: false,
                    francs: 0,
                    euros: 0,
                };
            }
            let old = judge_in(bill, places, Edition::V22);
            match old {
                Ok(_) => paid(&Payload::new(bill, places), true),
                Err(_) => Outcome {
                    differs: apart(old, new),
                    francs: 0,
                    euros: 0,
                },
            }
        }
    }
}

// Puts a position behind those that are listed where it is to be listed, and answers how many are listed then.
fn list_position(list: &mut [u16], n: usize, position: u16, differs: bool) -> usize
    requires { n < length list.old }
    ensures value { result ≡ cond differs (n + 1) n }
    ensures list_after { list.new ≡ cond differs (set list.old n position) list.old }
{
    if differs {
        list[n] = position;
        return n + 1;
    }
    n
}

// Tries bill after bill, in one pass. No sum of 500 bills comes near the end of 64 bits.
fn try_all(gathered: Gathered, list: &mut [u16]) -> Result<Tried, Fault>
    requires { gathered.bills.count ≤ length list.old }
    ensures { AreTried (bills_of gathered.entry.bills) list.old result list.new }
{
    let mut n = 0;
    let mut francs: u64 = 0;
    let mut euros: u64 = 0;
    let mut lines = [0; WALK_NUMBERS];
    for i in 0..gathered.bills.count {
        let bill = try_bill(gathered.bills.bill(i), &mut lines);
        n = list_position(list, n, (i + 1) as u16, bill.differs);
        francs += bill.francs;
        euros += bill.euros;
    }
    let tried = Tried {
        listed: n,
        francs,
        euros,
    };
    Ok(tried)
}

// Tries under both editions the bills that the first `count` places give of the buffer. Puts the positions of those
// whose number or line differs, from 1 and ascending, into the front of the list, and answers how many these are, with
// the sums in cents of the amounts that 2.2 accepts, of CHF and of EUR. A refusal changes no number.
pub fn season(buffer: &[u8], places: &[u32], count: usize, list: &mut [u16]) -> Result<Tried, Fault>
    ensures { IsTried buffer.now places.now count list.old result list.new }
{
    let bills = Bills {
        buffer,
        places,
        count,
    };
    bills.gather_bills()?;
    if list.len() < count {
        return Err(Fault::NoRoom);
    }
    try_all(Gathered { bills }, list)
}
