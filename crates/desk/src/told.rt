// What is told: the answer on standard output, how it went on descriptor 3, and what failed on standard error.
ghost use Rattle.std.specs.Prelude.{◌≤◌, length};

use crate::line::{add, add_name, add_named};
use sieve::{Fault, line_of, number_of, place_of};

// The descriptors. Where the status goes is neither of the user's two.
const STDOUT: i32 = 1;

pub const STDERR: i32 = 2;

const STATUS: i32 = 3;

// Enough for any status: a few words, and five numbers of at most 20 digits.
pub const STATUS_ROOM: usize = 160;

// A line with a name of 4,096 bytes, told by four for each, and what stands beside the name.
pub const NAME_ROOM: usize = 16640;

pub fn tell(status: &[u8]) {
    io::write_all(STATUS, status);
}

// Writes the front of a buffer to standard output; false where it was not written whole.
pub fn write_front(buffer: &[u8], n: usize) -> bool {
    let end = n.min(buffer.len());
    io::write_all(STDOUT, &buffer[0..end])
}

// The place of the byte that a refusal points at stands there where it points at one.
fn add_refusal(line: &mut [u8], fault: Fault) -> usize
    ensures { result ≤ length line.new }
{
    let number = add_named(line, 0, b"refused ", number_of(fault) as u64);
    let named = add_named(line, number, b" line ", line_of(fault) as u64);
    let placed = match place_of(fault) {
        Some(place) => add_named(line, named, b" byte ", place as u64),
        None => named,
    };
    add(line, placed, b"\n")
}

pub fn tell_refusal(fault: Fault) {
    let mut line = [0u8; STATUS_ROOM];
    let n = add_refusal(&mut line, fault);
    tell(&line[0..n]);
}

fn add_unread(line: &mut [u8], name: &[u8]) -> usize
    ensures { result ≤ length line.new }
{
    let said = add(line, 0, b"qrbill: cannot be read: ");
    let named = add_name(line, said, name);
    add(line, named, b"\n")
}

// Says on standard error that a file cannot be read.
pub fn complain(name: &[u8]) {
    let mut line = [0u8; NAME_ROOM];
    let n = add_unread(&mut line, name);
    io::write_all(STDERR, &line[0..n]);
}
