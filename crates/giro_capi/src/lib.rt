// Calls for C of the girocode, as `capi` has them of the Swiss bill. They are a library of their own: a function that both
// layouts call is not inlined, and the Swiss calls would take a tenth more.

#![tactic(auto)]

ghost use Rattle.std.specs.Prelude.{◌≡◌};
ghost use Rattle.sieve.specs.Verdict.{verdict};
ghost use Rattle.girocode.specs.Girocode.{girocode};
ghost use Rattle.packing.specs.Packing.{packed};
ghost use Rattle.packing.specs.Calls.{packed_line_in, IsPackedRead, IsPackedWrittenTo};

use giro_judge::{judge, verdict};
use giro_reader::read;
use giro_writer::write;
use girocode::limits::MOST_LINES;
use packing::{break_for, packed_answer, packed_laying, packed_line, packed_verdict, told_count};
use sieve::WALK_NUMBERS;

// The line count of an accepted girocode; of a refused one 1000 times the refusal plus the line.
#[unsafe(no_mangle)]
pub extern "C" fn girocode_read(payload: &[u8]) -> u32
    ensures { result ≡ packed (verdict girocode payload.now) }
{
    packed_answer(verdict(payload))
}

// 1000 times the start plus the length of a line of an accepted girocode, counted from 1; 0 where it is refused or the
// number is not 1 to 12.
#[unsafe(no_mangle)]
pub extern "C" fn girocode_line(payload: &[u8], line: u32) -> u32
    ensures { result ≡ packed_line_in girocode payload.now line }
{
    let mut places = [0; WALK_NUMBERS];
    let answer = judge(payload, &mut places);
    packed_line(answer, &places, line, MOST_LINES)
}

// The line count of an accepted girocode, plus 100 for CR LF, with the places in the list's front; else 1000 times the
// refusal plus the line, and the list is as it was.
#[unsafe(no_mangle)]
pub extern "C" fn girocode_places(payload: &[u8], list: &mut [u16]) -> u32
    ensures { IsPackedRead girocode payload.now list.old result list.new }
{
    packed_verdict(read(payload, list))
}

// How many bytes of a girocode were written; else 1000 times the refusal plus the line, and the destination is as it was.
#[unsafe(no_mangle)]
pub extern "C" fn girocode_write(
    text: &[u8],
    list: &[u16],
    count: u32,
    crlf: bool,
    dest: &mut [u8],
) -> u32
    ensures { IsPackedWrittenTo girocode text list count crlf dest result }
{
    packed_laying(write(text, list, told_count(count), break_for(crlf), dest))
}
