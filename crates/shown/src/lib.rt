// The list that is shown of a bill: of each line where it lies and how many characters it has; filled for a reader, and
// held against a writer's text.

#![tactic(auto)]

ghost use Rattle.std.specs.Prelude.{◌≡◌, ◌*◌, ◌≤◌, length, drop};
ghost use Rattle.sieve.specs.Characters.{characters};
ghost use Rattle.sieve.specs.Places.{walk_lines, walk_numbers, places_in};
ghost use Rattle.shown.specs.Shown.{shown_size, OnePerByte, OnePerByteIf, Countable, InsideTwo, shown_over, InsideThree, wrong_as, first_wrong};

use runs::characters;
use sieve::WALK_LINES;

// How many characters a line has; where it is plain, as many as bytes.
fn counted(line: &[u8], plain: bool) -> u16
    requires { Countable line.now plain }
    ensures { result ≡ characters line.now }
{
    if plain {
        line.len() as u16
    } else {
        characters(line) as u16
    }
}

// How many bytes are asked at once whether each is a character: a known number, so that the compiler makes no loop of it.
const PART: usize = 128;

// A place from which on a text has a character for each byte: 0 where all of it has. The parts are asked from the end on,
// up to the last one that has fewer characters.
fn plain_from(text: &[u8]) -> usize
    ensures { OnePerByte (drop result text.now) }
{
    let mut at = text.len();
    while PART <= at {
        let from = at - PART;
        if characters(&text[from..at]) != PART {
            return at;
        }
        at = from;
    }
    if characters(&text[0..at]) == at {
        return 0;
    }
    at
}

// Fills the list as `show` does, of a payload that is plain from `tail` on: only lines that begin before are counted.
fn fill_lines(payload: &[u8], places: &[u16], list: &mut [u16], plain: bool, tail: usize)
    requires inside_two { InsideTwo payload.now places.now × (shown_size ≤ length list.old) }
    requires one_per_byte_if { OnePerByteIf plain payload.now × OnePerByte (drop tail payload.now) }
    ensures { list.new ≡ shown_over list payload places }
{
    for i in 0..WALK_LINES {
        let start = places[2 * i];
        let bytes = places[2 * i + 1];
        let from = start as usize;
        let to = from + bytes as usize;
        let n = counted(&payload[from..to], plain | (tail <= from));
        list[3 * i] = start;
        list[3 * i + 1] = bytes;
        list[3 * i + 2] = n;
    }
}

// Fills a list with three numbers for each of 34 lines: where it lies, by the list that a walk made, and its characters.
// A plain payload has a call of its own, which counts no line: so the compiler copies many numbers at a time.
pub fn show(payload: &[u8], places: &[u16], list: &mut [u16])
    requires { InsideTwo payload.now places.now × (shown_size ≤ length list.old) }
    ensures { list.new ≡ shown_over list payload places }
{
    let tail = plain_from(payload);
    if tail == 0 {
        fill_lines(payload, places, list, true, 0);
    } else {
        fill_lines(payload, places, list, false, tail);
    }
}

// Takes out of such a list where its 34 lines lie, for those that ask for two numbers a line. All are taken, whatever the
// count: a known number of them is copied many at a time.
pub fn places_in(list: &[u16], places: &mut [u16])
    requires { (shown_size ≤ length list.now) × (length places.old ≡ walk_numbers) }
    ensures { places.new ≡ places_in 3 walk_lines list.now }
{
    for i in 0..WALK_LINES {
        places[2 * i] = list[3 * i];
        places[2 * i + 1] = list[3 * i + 1];
    }
}

// The first line, counted from 1, of which a list says another number of characters than it has.
pub fn first_wrong(text: &[u8], list: &[u16], count: usize) -> Option<usize>
    requires { InsideThree text.now list.now count }
    ensures { result ≡ wrong_as (first_wrong text.now list.now count) }
{
    let plain = characters(text) == text.len();
    for i in 0..count {
        let from = list[3 * i] as usize;
        let to = from + list[3 * i + 1] as usize;
        let told = list[3 * i + 2];
        let n = counted(&text[from..to], plain);
        if n != told {
            return Some(i + 1);
        }
    }
    None
}
