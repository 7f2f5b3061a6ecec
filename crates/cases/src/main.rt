// Runs the reader, the viewer, the writer, the scanner, the SWIFT fields and the pile over the records on standard input,
// under either edition, and writes what no call for C tells: the byte that a refusal points at, what a viewer hands out,
// what a scanner whose state goes by value answers, and all that edition 2.2 does. (Lists and destinations of the others
// are compared from C.)
// A record is four bytes of length, the lowest first, and that many bytes, at most 65,536: a letter and what it is about.
// The letter is a capital one for edition 2.4 and a small one for 2.2, which no viewer knows. Numbers have two bytes, the
// low one first. What is asked is answered by a line with a refusal's number, line and place, or with 0 and two numbers:
// R: a payload. The line count, and the kind of break, 1 for LF and 2 for CR LF. A second line has what a viewer of the
//    payload hands out, opened anew and moved on 0, 1, 2, .. times: `+` where it is not done and `.` where it is, the
//    length of the part that it hands out, a colon, and the part. It ends one move after the viewer is done, and with what
//    it hands out after a million moves.
// W: a call of the writer: the count of lines, the break (1 for LF, 2 for CR LF), how many bytes the destination has, how
//    many numbers the list has, those numbers, and the text. The length, and 0.
// S: how many bits there are, the length of each, and a payload that comes in them. As for R, and a second line has the
//    numbers of the list that the scanner was lent, 128 zeros before.
// M: a payload whose SWIFT fields are made. The length, and 0; a line with the lines of each field, one with the
//    characters cut, those replaced and 0, and one with all 320 bytes that were lent, zeros before.
// P: how many bills there are, the places of four bills, and the buffer. Where it is done, a line with all 8 numbers that
//    were lent, zeros before, and no other.

#![tactic(auto)]

ghost use Rattle.std.specs.Prelude.{◌≤◌, ◌<◌};

use scanner::Scan;
use sieve::{Answer, Break, Fault, Written, line_of, number_of, place_of};
use swift::Counts;
use swiss::Edition;

// The descriptors.
const STDIN: i32 = 0;

const STDOUT: i32 = 1;

fn write_told(number: usize, line: usize, place: usize) {
    io::print_decimal(STDOUT, number as u64);
    io::write_all(STDOUT, b" ");
    io::print_decimal(STDOUT, line as u64);
    io::write_all(STDOUT, b" ");
    io::print_decimal(STDOUT, place as u64);
    io::write_all(STDOUT, b"\n");
}

fn write_fault(f: Fault) {
    write_told(number_of(f) as usize, line_of(f), place_of(f).unwrap_or(0));
}

fn kind_of(k: Break) -> usize {
    match k {
        Break::Lf => 1,
        Break::CrLf => 2,
    }
}

fn write_answer(answer: Answer) {
    match answer {
        Ok((count, k)) => write_told(0, count, kind_of(k)),
        Err(f) => write_fault(f),
    }
}

fn write_written(w: Written) {
    match w {
        Ok(n) => write_told(0, n, 0),
        Err(f) => write_fault(f),
    }
}

fn write_part(part: &[u8]) {
    io::print_decimal(STDOUT, part.len() as u64);
    io::write_all(STDOUT, b":");
    io::write_all(STDOUT, part);
}

// Whether a viewer that is moved on so many times is not done; what it hands out is written.
fn write_after(payload: &[u8], moves: usize) -> bool {
    let done = viewer::done_after(payload, moves);
    if done {
        io::write_all(STDOUT, b".");
    } else {
        io::write_all(STDOUT, b"+");
    }
    write_part(viewer::line_after(payload, moves));
    !done
}

// More moves than a bill has lines.
const MOST_MOVES: usize = 64;

// More than any caller makes one by one: what a viewer hands out then takes no longer, and no more room.
const MANY_MOVES: usize = 1000000;

// Writes what a viewer hands out until it is done, and answers how many moves lead there.
fn write_until_done(payload: &[u8]) -> usize
    ensures { result ≤ 64 }
{
    for moves in 0..MOST_MOVES {
        if !write_after(payload, moves) {
            return moves;
        }
    }
    MOST_MOVES
}

// Writes what a viewer hands out until it is done, one move after that, and after a million moves.
fn write_view(payload: &[u8]) {
    let moves = write_until_done(payload);
    write_after(payload, moves + 1);
    write_after(payload, MANY_MOVES);
    io::write_all(STDOUT, b"\n");
}

fn run_reading(payload: &[u8], edition: Edition) {
    let mut list = [0u16; Edition::LIST_SIZE];
    write_answer(reader::read(payload, edition, &mut list));
}

// The number of two bytes, the low one first.
fn pair(low: u8, high: u8) -> usize
    ensures { result < 65536 }
{
    u16::from_le_bytes([low, high]) as usize
}

// The number of two bytes that stands behind i others; 0 past the last.
fn number_at(bytes: &[u8], i: usize) -> u16 {
    if i < bytes.len() / 2 {
        return u16::from_le_bytes([bytes[2 * i], bytes[2 * i + 1]]);
    }
    0
}

fn fill(list: &mut [u16], bytes: &[u8]) {
    for (i, number) in list.iter_mut().enumerate() {
        *number = number_at(bytes, i);
    }
}

fn break_of(n: usize) -> Break {
    if n == 1 { Break::Lf } else { Break::CrLf }
}

// Calls the writer with the front of the list and of the destination. A call that is cut off, or that asks for more than
// they have, is not made.
fn run_call(call: &[u8], edition: Edition, list: &mut [u16], dest: &mut [u8]) {
    if call.len() < 8 {
        return;
    }
    let room = pair(call[4], call[5]);
    let numbers = pair(call[6], call[7]);
    let end = 8 + 2 * numbers;
    if dest.len() < room {
        return;
    }
    if list.len() < numbers {
        return;
    }
    if call.len() < end {
        return;
    }
    fill(list, &call[8..end]);
    let brk = break_of(pair(call[2], call[3]));
    write_written(writer::write(
        &call[end..],
        &list[0..numbers],
        pair(call[0], call[1]),
        brk,
        edition,
        &mut dest[0..room],
    ));
}

fn run_writing(call: &[u8], edition: Edition) {
    let mut list = [0; 104];
    let mut dest = [0; 1200];
    run_call(call, edition, &mut list, &mut dest);
}

// Hands over a payload, in bits as long as the numbers say.
fn scanned(sizes: &[u8], payload: &[u8]) -> Scan {
    let mut scan = Scan::begin();
    let mut at = 0;
    for i in 0..sizes.len() / 2 {
        let to = at + (number_at(sizes, i) as usize).min(payload.len() - at);
        scan = scan.hand(&payload[at..to]);
        at = to;
    }
    scan
}

fn write_number(n: u16) {
    io::print_decimal(STDOUT, n as u64);
    io::write_all(STDOUT, b" ");
}

fn write_list(list: &[u16]) {
    for n in list {
        write_number(*n);
    }
    io::write_all(STDOUT, b"\n");
}

// A record that is cut off is not scanned.
fn run_scanning(record: &[u8], edition: Edition) {
    if record.len() < 2 {
        return;
    }
    let end = 2 + 2 * pair(record[0], record[1]);
    if record.len() < end {
        return;
    }
    let mut list = [0u16; 128];
    let scan = scanned(&record[2..end], &record[end..]);
    write_answer(scan.close(edition, &mut list));
    write_list(&list);
}

fn write_mapped(counts: Counts, dest: &[u8]) {
    write_told(0, counts.bytes, 0);
    write_told(counts.beneficiary, counts.transaction, counts.remittance);
    write_told(counts.cut, counts.replaced, 0);
    write_part(dest);
    io::write_all(STDOUT, b"\n");
}

fn run_mapping(payload: &[u8], edition: Edition) {
    let mut dest = [0u8; 320];
    match swift::fields(payload, edition, &mut dest) {
        Err(f) => write_fault(f),
        Ok(counts) => write_mapped(counts, &dest),
    }
}

// The places of four bills: start and length of each.
fn four_places(bytes: &[u8]) -> [u32; 8] {
    [
        number_at(bytes, 0) as u32,
        number_at(bytes, 1) as u32,
        number_at(bytes, 2) as u32,
        number_at(bytes, 3) as u32,
        number_at(bytes, 4) as u32,
        number_at(bytes, 5) as u32,
        number_at(bytes, 6) as u32,
        number_at(bytes, 7) as u32,
    ]
}

// A record that is cut off is not judged.
fn run_piling(record: &[u8], edition: Edition) {
    if record.len() < 18 {
        return;
    }
    let places = four_places(&record[2..18]);
    let mut answers = [0u16; 8];
    let count = pair(record[0], record[1]);
    match pile::pile(&record[18..], &places, count, edition, &mut answers) {
        Err(f) => write_fault(f),
        Ok(()) => write_list(&answers),
    }
}

// Runs a record by its letter.
fn run_as(letter: u8, rest: &[u8], edition: Edition) {
    match letter {
        b'R' => run_reading(rest, edition),
        b'W' => run_writing(rest, edition),
        b'M' => run_mapping(rest, edition),
        b'P' => run_piling(rest, edition),
        _ => run_scanning(rest, edition),
    }
}

// How far a small letter stands behind its capital.
const SMALL: u8 = 32;

fn run(record: &[u8]) {
    if record.len() == 0 {
        return;
    }
    let letter = record[0];
    if b'a' <= letter {
        run_as(letter - SMALL, &record[1..], Edition::V22);
        return;
    }
    run_as(letter, &record[1..], Edition::V24);
    if letter == b'R' {
        write_view(&record[1..]);
    }
}

fn length_of(head: [u8; 4]) -> usize {
    u32::from_le_bytes(head) as usize
}

// Fills the slice with what comes next, and runs it as a record; false where there is less.
fn run_record(record: &mut [u8]) -> bool {
    if io::read_full(STDIN, record) < record.len() {
        return false;
    }
    run(record);
    true
}

// Runs the next record, by way of a buffer; false where there is none, or one that the buffer cannot hold.
fn run_next(buffer: &mut [u8]) -> bool {
    let mut head = [0u8; 4];
    if io::read_full(STDIN, &mut head) < 4 {
        return false;
    }
    let n = length_of(head);
    if buffer.len() < n {
        return false;
    }
    run_record(&mut buffer[0..n])
}

fn run_one() -> bool {
    let mut buffer = io::large_buffer();
    run_next(&mut buffer)
}

// A proved loop has to end, and nothing says that the input does, so the turns are counted.
fn main() {
    for _ in 0..u64::MAX {
        if !run_one() {
            return;
        }
    }
}
