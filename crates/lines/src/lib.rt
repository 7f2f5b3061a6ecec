// Lines and breaks of any bytes: how wide a break is, the line finder, and whether all breaks are alike.

#![tactic(auto)]

ghost use Rattle.std.specs.Prelude.{◌≡◌, ◌<◌, eqb, length, drop, get_or};
ghost use Rattle.sieve.specs.Bytes.{first_such};
ghost use Rattle.sieve.specs.Lines.{break_bytes, of_break};
ghost use Rattle.sieve.specs.Characters.{break_width};
ghost use Rattle.lines.specs.LinesIn.{line_of};
ghost use Rattle.sieve.specs.Options.{answered};
ghost use Rattle.lines.specs.Results.{IsLineAt, IsPlaceOf};
ghost use Rattle.lines.specs.Parted.{breaks_in, of_width, held_by, parted_by};

use sieve::{Answer, Break, Fault};

// Whether LF stands directly after a byte.
pub fn feed_after(s: &[u8], at: usize) -> bool
    requires { at < length s.now }
    ensures { result ≡ eqb (get_or (drop at s.now) 1 0) 10 }
{
    let next = at + 1;
    if next < s.len() {
        return s[next] == 10;
    }
    false
}

// The width of the break that begins at `at`, LF or CR directly followed by LF; 0 where none begins.
fn break_width(s: &[u8], at: usize) -> usize
    requires { at < length s.now }
    ensures { result ≡ break_width (drop at s.now) }
{
    let x = s[at];
    if x == 10 {
        return 1;
    }
    if (x == 13) & feed_after(s, at) {
        return 2;
    }
    0
}

// LF or CR.
fn of_break(x: u8) -> bool
    ensures { result ≡ of_break x }
{
    (x == 10) | (x == 13)
}

// Where a line ends, and where the next one starts; both the same where it is the last.
#[derive(Clone, Copy, Debug, PartialEq, Eq)]
pub struct LineAt {
    pub end: usize,
    pub next: usize,
}

// The line finder: of any bytes, the line that starts at `from`. Most bytes are neither LF nor CR, and are passed
// without looking at their neighbours.
pub fn line_at(s: &[u8], from: usize) -> LineAt
    ensures { IsLineAt s.now from result }
{
    for at in from..s.len() {
        if of_break(s[at]) {
            let b = break_width(s, at);
            if b != 0 {
                let next = at + b;
                return LineAt { end: at, next };
            }
        }
    }
    let end = if from < s.len() { s.len() } else { from };
    LineAt { end, next: end }
}

// Where a line lies.
#[derive(Clone, Copy, Debug, PartialEq, Eq)]
pub struct Place {
    pub start: usize,
    pub bytes: usize,
}

// The place of line `n`, counted from 1; 0 counts as 1. An absent line lies at the end, with length 0.
pub fn line_place(s: &[u8], n: usize) -> Place
    ensures { IsPlaceOf (line_of s.now n) result }
{
    let mut at = 0;
    for _ in 1..n {
        let line = line_at(s, at);
        if line.next == line.end {
            return Place {
                start: s.len(),
                bytes: 0,
            };
        }
        at = line.next;
    }
    let line = line_at(s, at);
    let bytes = line.end - at;
    Place { start: at, bytes }
}

// The first byte of a line that is CR or LF. Nearly all bytes are above both, and are passed by one test.
pub fn stray_break(s: &[u8]) -> Option<usize>
    ensures { result ≡ answered (first_such of_break 0 s.now) }
{
    for (i, x) in s.iter().enumerate() {
        if *x <= 13 {
            if of_break(*x) {
                return Some(i);
            }
        }
    }
    None
}

// How many bytes a break has.
pub fn break_length(k: Break) -> usize
    ensures { result ≡ length (break_bytes k) }
{
    match k {
        Break::Lf => 1,
        Break::CrLf => 2,
    }
}

// The breaks that were passed: the kind of the first, and the line that the first unlike it ends.
#[derive(Clone, Copy)]
struct BreaksPassed {
    first: Option<Break>,
    unlike: Option<usize>,
}

const NO_BREAKS: BreaksPassed = BreaksPassed {
    first: None,
    unlike: None,
};

// One break more, which ends line n.
fn held(breaks: BreaksPassed, brk: Break, n: usize) -> BreaksPassed
    ensures { result ≡ held_by breaks brk n }
{
    match breaks.first {
        None => BreaksPassed {
            first: Some(brk),
            ..breaks
        },
        Some(first) => {
            if breaks.unlike.is_none() & (brk != first) {
                return BreaksPassed {
                    unlike: Some(n),
                    ..breaks
                };
            }
            breaks
        }
    }
}

// The kind of a break, by its width.
fn break_of(width: usize) -> Break
    ensures { result ≡ of_width width }
{
    if width == 2 { Break::CrLf } else { Break::Lf }
}

// How n lines are parted, if these are the breaks between them.
fn parted_by(breaks: BreaksPassed, n: usize) -> Answer
    ensures { result ≡ parted_by breaks n }
{
    match breaks.unlike {
        None => Ok((n, breaks.first.unwrap_or(Break::Lf))),
        Some(i) => Err(Fault::MixedBreaks(i)),
    }
}

// How the lines of any bytes are parted, break after break: how many they are, and the kind of all breaks, LF where there is
// none; or the line that the first break unlike the first one ends.
pub fn parts(s: &[u8]) -> Answer
    ensures { result ≡ breaks_in s.now }
{
    let mut breaks = NO_BREAKS;
    let mut at = 0;
    let mut n = 1;
    loop {
        let line = line_at(s, at);
        let end = line.end;
        let next = line.next;
        if next == end {
            return parted_by(breaks, n);
        }
        breaks = held(breaks, break_of(next - end), n);
        at = next;
        n += 1;
    }
}
