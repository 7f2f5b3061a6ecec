// Rules 1 to 5, over a whole payload, for every layout: its bytes, its characters, its breaks and its lines.

#![tactic(auto)]

ghost use Rattle.std.specs.Prelude.{Err, ◌≡◌, replicate};
ghost use Rattle.sieve.specs.Places.{walk_numbers};
ghost use Rattle.sieve.specs.Charsets.{of_set};
ghost use Rattle.sieve.specs.Whole.{limited};
ghost use Rattle.whole.specs.Judged.{IsJudged};

use places::clear;
use sieve::{Answer, Charset, Fault, Limits, WALK_NUMBERS};
use walk::walk;

// A refusal leaves no places in the list.
fn refuse(places: &mut [u16; WALK_NUMBERS], fault: Fault) -> Answer
    ensures value { result ≡ Err fault }
    ensures places_after { places.new ≡ replicate walk_numbers 0 }
{
    clear(places);
    Err(fault)
}

// What rules 1 to 5 say of any bytes, with the places of the lines of what they accept.
pub fn whole(
    payload: &[u8],
    limits: Limits,
    set: Charset,
    places: &mut [u16; WALK_NUMBERS],
) -> Answer
    ensures { IsJudged (limited limits (of_set set)) payload.now result places.new }
{
    if payload.len() == 0 {
        return refuse(places, Fault::NoBytes);
    }
    if limits.bytes < payload.len() {
        return refuse(places, Fault::TooManyBytes);
    }
    match walk(payload, set, places) {
        Err(f) => refuse(places, f),
        Ok((n, brk)) => {
            if (limits.fewest <= n) & (n <= limits.most) {
                Ok((n, brk))
            } else {
                refuse(places, Fault::LineCount(n))
            }
        }
    }
}
