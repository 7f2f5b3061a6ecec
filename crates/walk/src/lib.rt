// The walk over a payload: its characters, its breaks, and where its lines lie.

#![tactic(auto)]

ghost use Rattle.std.specs.Prelude.{◌≡◌, ◌≤◌, length};
ghost use Rattle.sieve.specs.Places.{walk_numbers};
ghost use Rattle.sieve.specs.Characters.{bad_place};
ghost use Rattle.sieve.specs.Charsets.{of_set};
ghost use Rattle.lines.specs.Parted.{breaks_in};
ghost use Rattle.places.specs.Listed.{greatest, listed, listed_short, listed_of, Filled};
ghost use Rattle.walk.specs.Here.{Reached, Inside, GoneThrough, GoneOn, Arrived, AllBehind};
ghost use Rattle.walk.specs.Walking.{noted, behind_one_passed, Passable, IsTold};

use characters::{characters_in, first_marked, later_marks, marks_at, plain_run};
use lines::{feed_after, parts};
use places::clear;
use sieve::{Answer, Break, Charset, Fault, WALK_LINES, WALK_NUMBERS};

// The greatest number of 16 bits.
const GREATEST: usize = 65535;

// The lines that are behind the walk: the breaks that ended them, how many of these are CR LF, and where the next line
// starts.
#[derive(Clone, Copy)]
struct Behind {
    feeds: usize,
    returns: usize,
    start: usize,
}

// Where the walk stands: the lines behind it, and the byte that it has come to.
#[derive(Clone, Copy)]
struct Standing {
    passed: Behind,
    at: usize,
}

// Where the walk stands among sixteen bytes: the lines behind it, and the marks of the bytes that are not.
#[derive(Clone, Copy)]
struct Ahead {
    passed: Behind,
    left: u32,
}

// How many bytes are marked at once, and a mark for each of them.
const WINDOW: usize = 16;

const ALL: u32 = 0xFFFF;

// Notes a line behind n others, where it is among the lines that are listed. Of longer numbers 16 bits are noted. The
// list comes as a slice, since a proof learns how many numbers an array has where the array is lent as one.
fn note(places: &mut [u16], n: usize, start: usize, bytes: usize)
    requires { length places.old ≡ walk_numbers }
    ensures { places.new ≡ noted places.old n start bytes }
{
    if n < WALK_LINES {
        places[2 * n] = (start % 65536) as u16;
        places[2 * n + 1] = (bytes % 65536) as u16;
    }
}

// A line of so many bytes is passed, and the break at `at` that ends it.
fn pass(places: &mut [u16], passed: Behind, bytes: usize, at: usize, width: usize) -> Behind
    requires { (length places.old ≡ walk_numbers) × Passable passed at width }
    ensures value { result ≡ behind_one_passed passed at width }
    ensures places_after { places.new ≡ noted places.old passed.feeds passed.start bytes }
{
    note(places, passed.feeds, passed.start, bytes);
    Behind {
        feeds: passed.feeds + 1,
        returns: passed.returns + (width - 1),
        start: at + width,
    }
}

// Passes lines that end with LF among sixteen bytes, from mark to mark: to a mark that is no LF, or to the end of the
// list.
fn pass_feeds(s: &[u8], places: &mut [u16; WALK_NUMBERS], from: usize, ahead: Ahead) -> Ahead
    requires { Inside s.now places.old from ahead }
    ensures { GoneThrough s.now places.old from ahead places.new result }
{
    let mut p = ahead.passed;
    let mut left = ahead.left;
    while left != 0 {
        let at = from + first_marked(left);
        if WALK_LINES <= p.feeds {
            break;
        }
        if s[at] != 10 {
            break;
        }
        p = pass(places, p, at - p.start, at, 1);
        left = later_marks(left);
    }
    Ahead { passed: p, left }
}

// Passes lines that end with CR LF, in the same way: CR and LF are both marked. A break of which only CR is among the
// sixteen bytes is left.
fn pass_returns(s: &[u8], places: &mut [u16; WALK_NUMBERS], from: usize, ahead: Ahead) -> Ahead
    requires { Inside s.now places.old from ahead }
    ensures { GoneThrough s.now places.old from ahead places.new result }
{
    let mut p = ahead.passed;
    let mut left = ahead.left;
    while left != 0 {
        let at = from + first_marked(left);
        let later = later_marks(left);
        if later == 0 {
            break;
        }
        if WALK_LINES <= p.feeds {
            break;
        }
        if s[at] != 13 {
            break;
        }
        if s[at + 1] != 10 {
            break;
        }
        p = pass(places, p, at - p.start, at, 2);
        left = later_marks(later);
    }
    Ahead { passed: p, left }
}

// Passes lines of characters by themselves, sixteen bytes at once, from the start of a line on: to a byte that is neither
// such a character nor of a break like those before it, to the end of the list or to that of the bytes. The last sixteen
// bytes are asked whole; of their marks those are kept that are not behind the walk.
fn pass_lines(s: &[u8], places: &mut [u16; WALK_NUMBERS], passed: Behind) -> Standing
    requires { Reached s.now places.old passed.start passed }
    ensures { GoneOn s.now places.old passed places.new result }
{
    let mut p = passed;
    let mut from = p.start;
    if s.len() < WINDOW {
        return Standing {
            passed: p,
            at: from,
        };
    }
    let last = s.len() - WINDOW;
    let mut keep = ALL;
    loop {
        while from <= last {
            let left = marks_at(s, from) & keep;
            let fed = pass_feeds(s, places, from, Ahead { passed: p, left });
            let returned = pass_returns(s, places, from, fed);
            p = returned.passed;
            if returned.left != 0 {
                return Standing {
                    passed: p,
                    at: from + first_marked(returned.left),
                };
            }
            keep = ALL;
            from += WINDOW;
        }
        if from == s.len() {
            return Standing {
                passed: p,
                at: from,
            };
        }
        keep = ALL << ((from - last) as u32);
        from = last;
    }
}

const NONE_PASSED: Behind = Behind {
    feeds: 0,
    returns: 0,
    start: 0,
};

// Walks line by line, and in each line character by character, to the first place where neither a character nor a
// break begins, or behind the last byte. What ends a line is one LF, alone or after CR. Most lines are of characters that
// are one byte in each set, 20 to 7E, and are passed sixteen bytes at once; only from where that ends is a line walked by
// itself. Where it stops is noted there: as a place that lives on behind the loops, `at` costs the compiler a register.
fn come(s: &[u8], set: Charset, places: &mut [u16; WALK_NUMBERS]) -> Standing
    ensures { Arrived set s.now places.new result }
{
    let mut at = 0;
    let mut stop = s.len();
    let mut passed = NONE_PASSED;
    'lines: while at < s.len() {
        let standing = pass_lines(s, places, passed);
        passed = standing.passed;
        at = standing.at;
        while at < s.len() {
            at += plain_run(&s[at..]);
            if at == s.len() {
                break 'lines;
            }
            let x = s[at];
            if x == 10 {
                passed = pass(places, passed, at - passed.start, at, 1);
                at += 1;
                break;
            }
            if (x == 13) & feed_after(s, at) {
                passed = pass(places, passed, at - passed.start, at, 2);
                at += 2;
                break;
            }
            let n = characters_in(set, s, at);
            if n == 0 {
                stop = at;
                break 'lines;
            }
            at += n;
        }
    }
    Standing { passed, at: stop }
}

// How lines are parted of which all but the last are behind the walk, by their number where that is enough: none of the
// breaks is CR LF, or each is. Only in bytes that are refused is the first unlike one looked for.
fn counted(s: &[u8], passed: Behind) -> Answer
    requires { AllBehind s.now passed }
    ensures { result ≡ breaks_in s.now }
{
    let lines = passed.feeds + 1;
    if passed.returns == 0 {
        return Ok((lines, Break::Lf));
    }
    if passed.returns == passed.feeds {
        return Ok((lines, Break::CrLf));
    }
    parts(s)
}

// The rest of a list in which n lines are noted: an absent line gets the count of all bytes and 0.
fn list_absent(s: &[u8], places: &mut [u16], n: usize)
    requires s_len_bound { (length s.now ≤ greatest) × (length places.old ≡ walk_numbers) }
    requires filled { Filled s.now places.old (length s.now) (listed_of n) }
    ensures { places.new ≡ listed s.now }
{
    let end = s.len();
    for i in n..WALK_LINES {
        places[2 * i] = end as u16;
        places[2 * i + 1] = 0;
    }
}

// The list of bytes of which none is bad: their last line ends with them. 16 bits do not count more than GREATEST.
fn list(s: &[u8], passed: Behind, places: &mut [u16; WALK_NUMBERS])
    requires { Reached s.now places.old (length s.now) passed }
    ensures { places.new ≡ listed_short s.now }
{
    if GREATEST < s.len() {
        clear(places);
        return;
    }
    let start = passed.start;
    let feeds = passed.feeds;
    note(places, feeds, start, s.len() - start);
    list_absent(s, places, feeds + 1);
}

// The whole walk, over any bytes: where they stop to be characters and breaks; else how their lines are parted. The list
// that is lent gets start and length of each of 34 lines; it is cleared where a byte is bad, or where the bytes are more
// than 16 bits count.
pub fn walk(s: &[u8], set: Charset, places: &mut [u16; WALK_NUMBERS]) -> Answer
    ensures { IsTold s.now (bad_place (of_set set) s.now) result places.new }
{
    let standing = come(s, set, places);
    let at = standing.at;
    let passed = standing.passed;
    if at < s.len() {
        clear(places);
        return Err(Fault::BadCharacter(1 + passed.feeds, at));
    }
    list(s, passed, places);
    counted(s, passed)
}
