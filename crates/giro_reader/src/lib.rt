// Reads a girocode: the verdict, then room, then the places of its lines.

#![tactic(auto)]

ghost use Rattle.sieve.specs.Reading.{IsRead};
ghost use Rattle.girocode.specs.Girocode.{girocode};

use giro_judge::judge;
use girocode::limits::LIST_SIZE;
use runs::lay;
use sieve::{Answer, Fault, WALK_NUMBERS};

// The line count and the kind of break of an accepted payload, with start and byte length of each of 12 lines in the
// front of the list; an absent line has the payload's length and 0. A refusal changes no number: the walk's own list is
// copied last.
pub fn read(payload: &[u8], list: &mut [u16]) -> Answer
    ensures { IsRead girocode payload.now list.old result list.new }
{
    let mut places = [0; WALK_NUMBERS];
    let (n, k) = judge(payload, &mut places)?;
    if list.len() < LIST_SIZE {
        return Err(Fault::NoRoom);
    }
    lay(list, &places[0..LIST_SIZE]);
    Ok((n, k))
}
