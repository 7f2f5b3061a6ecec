// Writes a girocode: its lines, found in a text by a list of places, joined by a break.

#![tactic(auto)]

ghost use Rattle.girocode.specs.Girocode.{girocode};
ghost use Rattle.joining.specs.Stages.{IsWrittenTo};

use giro_judge::verdict;
use girocode::limits::{LIMITS, MOST_BYTES};
use joining::{Handed, Joinable};
use sieve::{Break, Written};

// Joins the lines that the first `count` places give of the text, with the break between them, in the front of the
// destination, and answers how many bytes those are. A refusal changes no byte of it, so the reader is asked about lines
// that are joined in a buffer of its own.
pub fn write(text: &[u8], places: &[u16], count: usize, brk: Break, dest: &mut [u8]) -> Written
    ensures { IsWrittenTo girocode text places count brk dest result }
{
    let lines = Handed {
        text,
        list: places,
        count,
        brk,
    };
    let n = lines.gather(LIMITS)?;
    let mut joined = [0; MOST_BYTES];
    lines.lay_lines(&mut joined);
    let answer = verdict(&joined[0..n]);
    Joinable { lines }.settle(answer, dest, n)
}
