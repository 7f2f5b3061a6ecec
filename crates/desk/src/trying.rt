// A season: files tried under both editions.
ghost use Rattle.std.specs.Prelude.{◌≡◌, ◌<◌, ◌≤◌, length};

use crate::input::{argument, argument_count, read_file};
use crate::line::{add, add_name, add_named};
use crate::told::{NAME_ROOM, STATUS_ROOM, complain, tell, tell_refusal, write_front};
use season::Tried;
use sieve::Fault;

// The argument that is the first file.
const FIRST_FILE: usize = 2;

const MOST_FILES: usize = 500;

// One byte more than a bill may have, so that a longer file is refused; each file has so much room of its own.
const FILE_BYTES: usize = 998;

const ALL_BYTES: usize = 499000;

const PLACES: usize = 1000;

// The place of a file's bytes in the buffer.
fn note_place(places: &mut [u32], i: usize, start: usize, bytes: usize)
    requires { (i < 500) × (length places.old ≡ 1000) × (start < 499000) × (bytes ≤ 998) }
{
    places[2 * i] = start as u32;
    places[2 * i + 1] = bytes as u32;
}

// Reads a file into its room, and notes its place; false where it cannot be read.
fn gather_file(rt: &HostRuntime, i: usize, buffer: &mut [u8], places: &mut [u32]) -> bool
    requires { (i < 500) × (length buffer.old ≡ 499000) × (length places.old ≡ 1000) }
{
    let mut name = io::buffer();
    let n = argument(rt, FIRST_FILE + i, &mut name);
    let start = FILE_BYTES * i;
    let end = start + FILE_BYTES;
    let read = read_file(rt, &name[0..n], &mut buffer[start..end]);
    note_place(places, i, start, read.unwrap_or(0).min(FILE_BYTES));
    if read.is_none() {
        complain(&name[0..n]);
    }
    read.is_some()
}

// Reads all files, and answers how many cannot be read. There are at most 500, so no count wraps.
fn gather_files(rt: &HostRuntime, count: usize, buffer: &mut [u8], places: &mut [u32]) -> u64
    requires { (count ≤ 500) × (length buffer.old ≡ 499000) × (length places.old ≡ 1000) }
{
    let mut unread: u64 = 0;
    for i in 0..count {
        if !gather_file(rt, i, buffer, places) {
            unread = unread.wrapping_add(1);
        }
    }
    unread
}

fn add_unread(line: &mut [u8], unread: u64) -> usize
    ensures { result ≤ length line.new }
{
    let at = add_named(line, 0, b"unread ", unread);
    add(line, at, b"\n")
}

fn tell_unread(unread: u64) {
    let mut line = [0u8; STATUS_ROOM];
    let end = add_unread(&mut line, unread);
    tell(&line[0..end]);
}

fn add_tried(line: &mut [u8], tried: Tried) -> usize
    ensures { result ≤ length line.new }
{
    let listed = add_named(line, 0, b"season ", tried.listed as u64);
    let in_francs = add_named(line, listed, b" CHF ", tried.francs);
    let in_euros = add_named(line, in_francs, b" EUR ", tried.euros);
    add(line, in_euros, b"\n")
}

fn tell_tried(tried: Tried) {
    let mut line = [0u8; STATUS_ROOM];
    let end = add_tried(&mut line, tried);
    tell(&line[0..end]);
}

fn add_name_line(line: &mut [u8], name: &[u8]) -> usize {
    let end = add_name(line, 0, name);
    add(line, end, b"\n")
}

// Writes the name of the file at a position, from 1; false where it is not written whole.
fn write_name(rt: &HostRuntime, position: u16) -> bool {
    let mut name = io::buffer();
    let n = argument(rt, FIRST_FILE - 1 + position as usize, &mut name);
    let mut line = [0u8; NAME_ROOM];
    let end = add_name_line(&mut line, &name[0..n]);
    write_front(&line, end)
}

// Writes the names at all positions of a list; false where one is not written whole.
fn write_names(rt: &HostRuntime, positions: &[u16]) -> bool {
    positions.iter().all(|position| write_name(rt, *position))
}

fn answer_tried(rt: &HostRuntime, answer: Result<Tried, Fault>, list: &[u16]) {
    match answer {
        Err(fault) => tell_refusal(fault),
        Ok(tried) => {
            let end = tried.listed.min(list.len());
            if write_names(rt, &list[0..end]) {
                tell_tried(tried);
            }
        }
    }
}

fn try_files(rt: &HostRuntime, count: usize)
    requires { count ≤ 500 }
{
    let mut buffer = [0u8; ALL_BYTES];
    let mut places = [0u32; PLACES];
    let unread = gather_files(rt, count, &mut buffer, &mut places);
    if unread != 0 {
        tell_unread(unread);
        return;
    }
    let mut list = [0u16; MOST_FILES];
    let tried = season::season(&buffer, &places, count, &mut list);
    answer_tried(rt, tried, &list);
}

// How many arguments are files.
fn file_count(rt: &HostRuntime) -> usize {
    argument_count(rt).saturating_sub(FIRST_FILE)
}

pub fn try_season(rt: &HostRuntime) {
    let count = file_count(rt);
    if MOST_FILES < count {
        tell(b"refused 5 line 0\n");
        return;
    }
    try_files(rt, count);
}
