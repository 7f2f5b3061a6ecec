// Answers as one number, for C. Every call packs in this one way.

#![tactic(auto)]

ghost use Rattle.std.specs.Prelude.{◌≡◌, ◌≤◌, ◌<◌, length};
ghost use Rattle.sieve.specs.Paper.{paper_fault, paper, paper_written};
ghost use Rattle.sieve.specs.Places.{walk_lines, walk_numbers};
ghost use Rattle.packing.specs.Packing.{shift, packed_refusal, packed_place, mark, packed_count, break_for};
ghost use Rattle.packing.specs.Packing.{Packs, packed, packed_verdict, PacksLaying, packed_laying, told_count};
ghost use Rattle.packing.specs.Calls.{listed_place, Lists, line_place};
ghost use Rattle.packing.specs.Telling.{room_beside};

use sieve::{Answer, Break, Fault, Written, line_of, number_of};

// What the number of a refusal, or the start of a place, is multiplied by.
const SHIFT: u32 = 1000;

// The most that a packed line can be: it has three digits.
const MOST_TOLD: u32 = 999;

// 1000 times the refusal plus the line.
pub fn packed_refusal(fault: Fault) -> u32
    requires { (paper_fault fault).line < shift }
    ensures { result ≡ packed_refusal (paper_fault fault) }
{
    SHIFT * number_of(fault) + line_of(fault) as u32
}

// 1000 times the start plus the length.
pub fn packed_place(start: u16, bytes: u16) -> u32
    ensures { result ≡ packed_place start bytes }
{
    SHIFT * start as u32 + bytes as u32
}

// 1000 times the start plus the length that a list of places gives for a line.
fn listed_place(places: &[u16], line: usize) -> u32
    requires { (length places.now ≡ walk_numbers) × (1 ≤ line) × (line ≤ walk_lines) }
    ensures { result ≡ listed_place places.now line }
{
    let i = 2 * (line - 1);
    packed_place(places[i], places[i + 1])
}

// What a kind of break adds to a count of lines.
fn mark(brk: Break) -> u8
    ensures { result ≡ mark brk }
{
    match brk {
        Break::Lf => 0,
        Break::CrLf => 100,
    }
}

// A count of lines, plus 100 if their breaks are CR LF.
fn packed_count(lines: usize, brk: Break) -> u32
    requires { lines < 100 }
    ensures { result ≡ packed_count lines brk }
{
    lines as u32 + mark(brk) as u32
}

// A count of lines, which may be any number in C, as a refusal tells it: 999 where it is more. No bill has so many.
pub fn told_count(count: u32) -> usize
    ensures { result ≡ told_count count }
{
    count.min(MOST_TOLD) as usize
}

// The kind of break that a flag asks for.
pub fn break_for(crlf: bool) -> Break
    ensures { result ≡ break_for crlf }
{
    if crlf { Break::CrLf } else { Break::Lf }
}

// The room that a call lends on which tells numbers beside its answer: none, so that nothing is laid, where the list has
// too few numbers for them. Room is asked for last, so every other refusal still comes first.
pub fn room_beside(room: usize, numbers: usize, told: usize) -> usize
    ensures { (result ≡ room_beside room numbers told) × (result ≤ room) }
{
    if numbers < told {
        return 0;
    }
    room
}

// A verdict without its kind of break: the line count, or the refusal.
pub fn packed_answer(answer: Answer) -> u32
    requires { Packs (paper answer) }
    ensures { result ≡ packed (paper answer) }
{
    match answer {
        Ok((n, _)) => n as u32,
        Err(fault) => packed_refusal(fault),
    }
}

// A verdict with its kind of break.
pub fn packed_verdict(answer: Answer) -> u32
    requires { Packs (paper answer) }
    ensures { result ≡ packed_verdict (paper answer) }
{
    match answer {
        Ok((n, brk)) => packed_count(n, brk),
        Err(fault) => packed_refusal(fault),
    }
}

// How many bytes were laid, or the refusal.
pub fn packed_laying(written: Written) -> u32
    requires { PacksLaying (paper_written written) }
    ensures { result ≡ packed_laying (paper_written written) }
{
    match written {
        Ok(n) => n as u32,
        Err(fault) => packed_refusal(fault),
    }
}

// The place of a line of an accepted payload, counted from 1, of the most that its layout has; else 0.
pub fn packed_line(answer: Answer, places: &[u16], line: u32, most: usize) -> u32
    requires { Lists places.now most }
    ensures { result ≡ line_place most places.now line (paper answer) }
{
    match answer {
        Err(_) => 0,
        Ok(_) => {
            let n = line as usize;
            if (1 <= n) & (n <= most) {
                listed_place(places, n)
            } else {
                0
            }
        }
    }
}
