// The verdict on a girocode, in code: rules 1 to 5 over the whole payload, then those about its lines.

#![tactic(auto)]

ghost use Rattle.std.specs.Prelude.{◌≡◌};
ghost use Rattle.sieve.specs.Lines.{cut, lines_of};
ghost use Rattle.sieve.specs.Paper.{paper};
ghost use Rattle.sieve.specs.Verdict.{verdict};
ghost use Rattle.girocode.specs.Coding.{read_as_iso};
ghost use Rattle.girocode.specs.Girocode.{girocode};
ghost use Rattle.whole.specs.Judged.{IsJudged};

use giro_rules::rules;
use girocode::limits;
use lines::line_place;
use places::{Payload, clear};
use runs::same;
use sieve::{Answer, Charset, WALK_NUMBERS};
use whole::whole;

// Whether the third line says that the payload is in ISO 8859-1.
fn read_as_iso(payload: &[u8]) -> bool
    ensures { result ≡ read_as_iso (lines_of (cut payload.now)) }
{
    let third = line_place(payload, 3);
    let start = third.start;
    let end = start + third.bytes;
    same(&payload[start..end], &limits::ISO_8859_1)
}

// The verdict on any bytes, with the places of an accepted payload's lines in the list; of a refused one it holds none.
pub fn judge(payload: &[u8], places: &mut [u16; WALK_NUMBERS]) -> Answer
    ensures { IsJudged girocode payload.now result places.new }
{
    let iso = read_as_iso(payload);
    let set = if iso {
        Charset::Iso8859
    } else {
        Charset::Latin
    };
    match whole(payload, limits::LIMITS, set, places) {
        Err(f) => Err(f),
        Ok((n, k)) => match rules(&Payload::new(payload, places), n, iso) {
            Ok(()) => Ok((n, k)),
            Err(fault) => {
                clear(places);
                Err(fault)
            }
        },
    }
}

// The verdict alone.
pub fn verdict(payload: &[u8]) -> Answer
    ensures { paper result ≡ verdict girocode payload.now }
{
    let mut places = [0; WALK_NUMBERS];
    judge(payload, &mut places)
}
