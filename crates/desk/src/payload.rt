// Commands about the payload on standard input.
ghost use Rattle.std.specs.Prelude.{◌≤◌, length};

use crate::input::read_input;
use crate::line::{add, add_named};
use crate::told::{STATUS_ROOM, tell, tell_refusal, write_front};
use mender::{Mended, Repairs};
use sieve::Fault;
use swift::Counts;
use swiss::Edition;

// One byte more than a bill may have: a longer payload is refused whatever follows.
pub const READ_BYTES: usize = 998;

// One byte more than can be mended.
const MEND_BYTES: usize = 4097;

// The most bytes that the fields of a bill have.
const FIELD_BYTES: usize = 370;

// The line of a payload that is read as a girocode.
pub fn judge_girocode(rt: &HostRuntime) {
    let mut buffer = io::buffer();
    let n = read_input(rt, &mut buffer);
    let mut line = [0u8; 32];
    let k = report::report_girocode(&buffer[0..n], &mut line);
    if write_front(&line, k) {
        tell(b"done\n");
    }
}

fn add_repairs(line: &mut [u8], repairs: Repairs) -> usize
    ensures { result ≤ length line.new }
{
    let breaks = add_named(line, 0, b"mended ", repairs.breaks as u64);
    let spaces = add_named(line, breaks, b" ", repairs.spaces as u64);
    let lines = add_named(line, spaces, b" ", repairs.lines as u64);
    add(line, lines, b"\n")
}

fn tell_repairs(repairs: Repairs) {
    let mut line = [0u8; STATUS_ROOM];
    let n = add_repairs(&mut line, repairs);
    tell(&line[0..n]);
}

fn answer_mended(mended: Mended, dest: &[u8]) {
    match mended {
        Err(fault) => tell_refusal(fault),
        Ok((n, repairs)) => {
            if write_front(dest, n) {
                tell_repairs(repairs);
            }
        }
    }
}

// The payload, mended.
pub fn mend(rt: &HostRuntime) {
    let mut buffer = [0u8; MEND_BYTES];
    let n = read_input(rt, &mut buffer);
    let mut dest = io::buffer();
    let mended = mender::mend(&buffer[0..n], &mut dest);
    answer_mended(mended, &dest);
}

fn add_counts(line: &mut [u8], counts: Counts) -> usize
    ensures { result ≤ length line.new }
{
    let beneficiary = add_named(line, 0, b"fields ", counts.beneficiary as u64);
    let transaction = add_named(line, beneficiary, b" ", counts.transaction as u64);
    let remittance = add_named(line, transaction, b" ", counts.remittance as u64);
    let cut = add_named(line, remittance, b" cut ", counts.cut as u64);
    let replaced = add_named(line, cut, b" replaced ", counts.replaced as u64);
    add(line, replaced, b"\n")
}

fn tell_counts(counts: Counts) {
    let mut line = [0u8; STATUS_ROOM];
    let n = add_counts(&mut line, counts);
    tell(&line[0..n]);
}

fn answer_mapped(mapped: Result<Counts, Fault>, dest: &[u8]) {
    match mapped {
        Err(fault) => tell_refusal(fault),
        Ok(counts) => {
            if write_front(dest, counts.bytes) {
                tell_counts(counts);
            }
        }
    }
}

// SWIFT's fields of the payload.
pub fn map(rt: &HostRuntime) {
    let mut buffer = [0u8; READ_BYTES];
    let n = read_input(rt, &mut buffer);
    let mut dest = [0u8; FIELD_BYTES];
    let mapped = swift::fields(&buffer[0..n], Edition::V24, &mut dest);
    answer_mapped(mapped, &dest);
}
