// The verdict on a payload, in code: rules 1 to 5 over the whole payload, then those about its lines.

#![tactic(auto)]

ghost use Rattle.std.specs.Prelude.{◌≡◌};
ghost use Rattle.sieve.specs.Paper.{paper};
ghost use Rattle.sieve.specs.Verdict.{verdict};
ghost use Rattle.swiss.specs.Swiss.{swiss_in, swiss};
ghost use Rattle.whole.specs.Judged.{IsJudged};

use places::{Payload, clear};
use sieve::{Answer, Charset, WALK_NUMBERS};
use swiss::Edition;
use swiss_rules::rules;
use whole::whole;

// The verdict of an edition on any bytes, with the places of an accepted payload's lines in the list; of a refused one it
// holds none.
pub fn judge_in(payload: &[u8], places: &mut [u16; WALK_NUMBERS], edition: Edition) -> Answer
    ensures { IsJudged (swiss_in edition) payload.now result places.new }
{
    match whole(payload, Edition::LIMITS, Charset::Latin, places) {
        Err(f) => Err(f),
        Ok((n, k)) => match rules(&Payload::new(payload, places), n, edition) {
            Ok(()) => Ok((n, k)),
            Err(fault) => {
                clear(places);
                Err(fault)
            }
        },
    }
}

// The verdict alone.
pub fn verdict_in(payload: &[u8], edition: Edition) -> Answer
    ensures { paper result ≡ verdict (swiss_in edition) payload.now }
{
    let mut places = [0; WALK_NUMBERS];
    judge_in(payload, &mut places, edition)
}

// The verdict on any bytes under edition 2.4, with the places of the lines of what it accepts.
pub fn judge(payload: &[u8], places: &mut [u16; WALK_NUMBERS]) -> Answer
    ensures { IsJudged swiss payload.now result places.new }
{
    judge_in(payload, places, Edition::V24)
}

pub fn verdict(payload: &[u8]) -> Answer
    ensures { paper result ≡ verdict swiss payload.now }
{
    verdict_in(payload, Edition::V24)
}
