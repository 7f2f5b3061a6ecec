// Commands that write lines, which are arguments, as a payload.
ghost use Rattle.std.specs.Prelude.{◌<◌, ◌≤◌, length};

use crate::input::{argument, argument_count};
use crate::layout::Layout;
use crate::line::{add, add_named};
use crate::told::{STATUS_ROOM, tell, tell_refusal, write_front};
use runs::characters;
use sieve::{Break, Written};

// The argument that is the first line.
const FIRST_LINE: usize = 3;

// More lines than any layout allows. Those past them are left out: so many are refused already.
const LINES: usize = 64;

// As many bytes as numbers of two bytes can point into. Lines that have more are cut there: so many are refused already.
const TEXT_BYTES: usize = 65535;

// Start, bytes and characters of each line.
const LIST_NUMBERS: usize = 192;

// More bytes than any layout allows.
const PAYLOAD_BYTES: usize = 998;

// A number of a list of places; one that two bytes do not hold never comes.
fn note(list: &mut [u16], at: usize, n: usize) {
    if n <= TEXT_BYTES {
        if at < list.len() {
            list[at] = n as u16;
        }
    }
}

// The place of a line: a girocode's list has start and bytes, a Swiss bill's the characters too.
fn note_line(list: &mut [u16], i: usize, start: usize, text: &[u8], layout: Layout)
    requires { i < 64 }
{
    match layout {
        Layout::Girocode => {
            note(list, 2 * i, start);
            note(list, 2 * i + 1, text.len());
        }
        Layout::Swiss => {
            note(list, 3 * i, start);
            note(list, 3 * i + 1, text.len());
            note(list, 3 * i + 2, characters(text));
        }
    }
}

// Lays the lines behind each other in the text, and their places in the list.
fn gather(rt: &HostRuntime, count: usize, text: &mut [u8], list: &mut [u16], layout: Layout)
    requires { count ≤ 64 }
{
    let mut at = 0;
    for i in 0..count {
        let end = at + argument(rt, FIRST_LINE + i, &mut text[at..]);
        note_line(list, i, at, &text[at..end], layout);
        at = end;
    }
}

fn add_length(line: &mut [u8], n: usize) -> usize
    ensures { result ≤ length line.new }
{
    let at = add_named(line, 0, b"written ", n as u64);
    add(line, at, b"\n")
}

fn tell_length(n: usize) {
    let mut line = [0u8; STATUS_ROOM];
    let end = add_length(&mut line, n);
    tell(&line[0..end]);
}

fn answer_written(written: Written, dest: &[u8]) {
    match written {
        Err(fault) => tell_refusal(fault),
        Ok(n) => {
            if write_front(dest, n) {
                tell_length(n);
            }
        }
    }
}

fn line_count(rt: &HostRuntime) -> usize
    ensures { result ≤ 64 }
{
    argument_count(rt).saturating_sub(FIRST_LINE).min(LINES)
}

fn write_lines(rt: &HostRuntime, brk: Break, layout: Layout) {
    let count = line_count(rt);
    let mut text = [0u8; TEXT_BYTES];
    let mut list = [0u16; LIST_NUMBERS];
    gather(rt, count, &mut text, &mut list, layout);
    let mut dest = [0u8; PAYLOAD_BYTES];
    let written = layout.join(&text, &list, count, brk, &mut dest);
    answer_written(written, &dest);
}

// Writes the lines with the break that the second argument names; false where it names none.
pub fn write(rt: &HostRuntime, layout: Layout) -> bool {
    let mut name = [0u8; 8];
    let n = argument(rt, 2, &mut name);
    match &name[0..n] {
        b"lf" => write_lines(rt, Break::Lf, layout),
        b"crlf" => write_lines(rt, Break::CrLf, layout),
        _ => return false,
    }
    true
}
