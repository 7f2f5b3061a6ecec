// Files judged one by one, a line for each.
ghost use Rattle.std.specs.Prelude.{◌≤◌, length};

use crate::input::{argument, argument_count, read_file};
use crate::layout::Layout;
use crate::line::{add, add_name, add_named, add_number};
use crate::payload::READ_BYTES;
use crate::told::{STATUS_ROOM, STDERR, complain, tell, write_front};
use sieve::{Answer, Break, Fault, line_of, number_of, place_of};
use std::io::IsTerminal;

// The argument that is the first file.
const FIRST_FILE: usize = 2;

// So many bytes of lines wait to be written. Behind them the buffer has room for the longest line.
const WAITING_BYTES: usize = 48000;

// After so many files a terminal is told how far it is.
const STEP: usize = 64;

// What was counted, how far the buffer is laid, and whether a write failed. A count of arguments wraps on no machine.
#[derive(Clone, Copy)]
struct Tally {
    accepted: u64,
    refused: u64,
    unread: u64,
    at: usize,
    failed: bool,
}

fn add_accepted(out: &mut [u8], at: usize, n: usize, brk: Break) -> usize {
    let counted = add_named(out, at, b"\taccepted\t0\t", n as u64);
    match brk {
        Break::Lf => add(out, counted, b"\t\tLF\n"),
        Break::CrLf => add(out, counted, b"\t\tCRLF\n"),
    }
}

// The number of the byte stands there where a refusal points at one.
fn add_refused(out: &mut [u8], at: usize, fault: Fault) -> usize {
    let number = add_named(out, at, b"\trefused\t", number_of(fault) as u64);
    let line = add_named(out, number, b"\t", line_of(fault) as u64);
    let before = add(out, line, b"\t");
    let place = match place_of(fault) {
        Some(place) => add_number(out, before, place as u64),
        None => before,
    };
    add(out, place, b"\t\n")
}

// Lays a file's line behind those that wait.
fn lay_line(out: &mut [u8], t: Tally, name: &[u8], answer: Answer) -> Tally {
    let named = add_name(out, t.at, name);
    match answer {
        Ok((n, brk)) => Tally {
            accepted: t.accepted.wrapping_add(1),
            at: add_accepted(out, named, n, brk),
            ..t
        },
        Err(fault) => Tally {
            refused: t.refused.wrapping_add(1),
            at: add_refused(out, named, fault),
            ..t
        },
    }
}

// Takes the line that says how far it is off a terminal, where other text is to come.
fn clear_progress(terminal: bool) {
    if terminal {
        io::write_all(
            STDERR,
            b"\r                                                  \r",
        );
    }
}

fn judge_file(
    rt: &HostRuntime,
    i: usize,
    layout: Layout,
    terminal: bool,
    out: &mut [u8],
    t: Tally,
) -> Tally {
    let mut name = io::buffer();
    let n = argument(rt, i, &mut name);
    let mut payload = [0u8; READ_BYTES];
    match read_file(rt, &name[0..n], &mut payload) {
        Some(bytes) => lay_line(out, t, &name[0..n], layout.judge(&payload[0..bytes])),
        None => {
            clear_progress(terminal);
            complain(&name[0..n]);
            Tally {
                unread: t.unread.wrapping_add(1),
                ..t
            }
        }
    }
}

// Writes the lines that wait, where they are more than so many bytes.
fn flush(out: &[u8], t: Tally, most: usize, terminal: bool) -> Tally {
    if t.at <= most {
        return t;
    }
    clear_progress(terminal);
    let written = write_front(out, t.at);
    Tally {
        at: 0,
        failed: !written,
        ..t
    }
}

fn add_progress(line: &mut [u8], done: usize, all: usize) -> usize
    ensures { result ≤ length line.new }
{
    let said = add_named(line, 0, b"\rqrbill: ", done as u64);
    add_named(line, said, b" of ", all as u64)
}

// Says on a terminal how far it is, now and then.
fn show_progress(done: usize, all: usize, terminal: bool) {
    if terminal {
        if done % STEP == 0 {
            let mut line = [0u8; STATUS_ROOM];
            let n = add_progress(&mut line, done, all);
            io::write_all(STDERR, &line[0..n]);
        }
    }
}

const NOTHING_COUNTED: Tally = Tally {
    accepted: 0,
    refused: 0,
    unread: 0,
    at: 0,
    failed: false,
};

// Judges the files, and stops where a write fails.
fn judge_files(rt: &HostRuntime, layout: Layout, terminal: bool, out: &mut [u8]) -> Tally {
    let count = argument_count(rt);
    let mut t = NOTHING_COUNTED;
    for i in FIRST_FILE..count {
        t = judge_file(rt, i, layout, terminal, out, t);
        t = flush(out, t, WAITING_BYTES, terminal);
        if t.failed {
            return t;
        }
        show_progress(i + 1 - FIRST_FILE, count - FIRST_FILE, terminal);
    }
    flush(out, t, 0, terminal)
}

fn add_tally(line: &mut [u8], t: Tally) -> usize
    ensures { result ≤ length line.new }
{
    let accepted = add_named(line, 0, b"accepted ", t.accepted);
    let refused = add_named(line, accepted, b" refused ", t.refused);
    let unread = add_named(line, refused, b" unread ", t.unread);
    add(line, unread, b"\n")
}

fn tell_tally(t: Tally) {
    let mut line = [0u8; STATUS_ROOM];
    let n = add_tally(&mut line, t);
    tell(&line[0..n]);
}

// Where there are too few files to say how far it is, a terminal is left alone.
pub fn judge_each(rt: &HostRuntime, layout: Layout) {
    let many = FIRST_FILE + STEP <= argument_count(rt);
    let terminal = rt.stderr().is_terminal() & many;
    let mut out = io::large_buffer();
    let t = judge_files(rt, layout, terminal, &mut out);
    clear_progress(terminal);
    if t.failed {
        return;
    }
    tell_tally(t);
}
