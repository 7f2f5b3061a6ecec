// Mends a payload that a mail program mangled: its breaks, spaces that end a line or stand within the account and the
// reference, and empty last lines.

#![tactic(auto)]

ghost use Rattle.std.specs.Prelude.{◌≡◌, ◌+◌, ◌≤◌, length};
ghost use Rattle.sieve.specs.Characters.{line_feeds};
ghost use Rattle.mender.specs.Mending.{most_mended, mend_of, mend_by_steps, EndsByRoom, EndsByReader, IsMended};
ghost use Rattle.mender.specs.Sweeping.{CanPut, Farther, Carries, CanPass, SweptTo, firm_at, IsSwept, IsEnd};

use lines::feed_after;
use runs::lay;
use sieve::{Answer, Fault};
use swiss::Edition;
use swiss_judge::verdict;

// Bytes that can be mended.
const MOST: usize = 4096;

// Bytes for which a small room is enough.
const SHORT: usize = 2000;

// What was counted on the way: breaks that were not LF, spaces taken, lines dropped.
#[derive(Clone, Copy)]
pub struct Repairs {
    pub breaks: usize,
    pub spaces: usize,
    pub lines: usize,
}

// What the mender answers: how many bytes were written, and what was counted; or why none were.
pub type Mended = Result<(usize, Repairs), Fault>;

// How far bytes are laid: to `at`, of which those from `solid` on are spaces, which stay only where their line goes on.
#[derive(Clone, Copy)]
struct Reach {
    at: usize,
    solid: usize,
    line: usize,
}

// How far bytes are laid, with what was counted: breaks that were not LF, and those of them that were CR LF.
#[derive(Clone, Copy)]
struct Tally {
    reach: Reach,
    breaks: usize,
    pairs: usize,
}

// What a sweep over a payload leaves: so many bytes and lines after steps 1 to 3, and what was counted.
#[derive(Clone, Copy)]
struct Swept {
    bytes: usize,
    lines: usize,
    breaks: usize,
    pairs: usize,
}

// Lays one byte more of a payload whose breaks are LF.
fn put(x: u8, s: Reach, room: &mut [u8]) -> Reach
    requires { CanPut s room.old }
    ensures farther { Farther s result }
    ensures carries { Carries x s room.old result room.new }
{
    if x == 10 {
        room[s.solid] = 10;
        let at = s.solid + 1;
        return Reach {
            at,
            solid: at,
            line: s.line + 1,
        };
    }
    if x == 32 {
        if (s.line == 4) | (s.line == 29) {
            return s;
        }
        room[s.at] = 32;
        return Reach { at: s.at + 1, ..s };
    }
    room[s.at] = x;
    let at = s.at + 1;
    Reach { at, solid: at, ..s }
}

// Passes one byte more of a payload: what held before it holds after it.
fn pass_byte(payload: &[u8], i: usize, t: Tally, room: &mut [u8]) -> Tally
    requires { CanPass payload.now i t room.old }
    ensures { SweptTo payload.now (i + 1) result room.new }
{
    let x = payload[i];
    if x != 13 {
        let reach = put(x, t.reach, room);
        return Tally { reach, ..t };
    }
    let breaks = t.breaks + 1;
    if feed_after(payload, i) {
        let pairs = t.pairs + 1;
        return Tally { breaks, pairs, ..t };
    }
    let reach = put(10, t.reach, room);
    Tally { reach, breaks, ..t }
}

// Whether a byte over 32, which is neither a space nor of a break, stands at a place.
fn firm_at(payload: &[u8], i: usize) -> bool
    ensures { result ≡ firm_at payload.now i }
{
    if i < payload.len() {
        return 32 < payload[i];
    }
    false
}

// Steps 1 to 3 in one pass: breaks become LF as they come, and spaces are pending until their line goes on. Most bytes stand
// in runs over 32, which have a loop of their own: behind a run's first byte no space is pending, and the compiler keeps one
// number for `at` and `solid`.
fn sweep(payload: &[u8], room: &mut [u8]) -> Swept
    requires { (length payload.now ≤ length room.old) × (length payload.now ≤ most_mended) }
    ensures { IsSwept payload.now result room.new }
{
    let start = Reach {
        at: 0,
        solid: 0,
        line: 1,
    };
    let mut t = Tally {
        reach: start,
        breaks: 0,
        pairs: 0,
    };
    let mut i = 0;
    while i < payload.len() {
        if firm_at(payload, i) {
            t = pass_byte(payload, i, t, room);
            i += 1;
            while firm_at(payload, i) {
                t = pass_byte(payload, i, t, room);
                i += 1;
            }
        } else {
            t = pass_byte(payload, i, t, room);
            i += 1;
        }
    }
    let reach = t.reach;
    Swept {
        bytes: reach.solid,
        lines: reach.line,
        breaks: t.breaks,
        pairs: t.pairs,
    }
}

// Step 4, from the end: where bytes end without their empty last lines past line 31.
fn end_of(bytes: &[u8], lines: usize) -> usize
    requires { lines ≡ 1 + line_feeds bytes.now }
    ensures { IsEnd bytes.now result }
{
    let mut end = bytes.len();
    for _ in Edition::FEWEST_LINES..lines {
        if bytes[end - 1] != 10 {
            return end;
        }
        end -= 1;
    }
    end
}

// Lays bytes that the reader accepts, if there is room.
fn lay_mended(bytes: &[u8], repairs: Repairs, dest: &mut [u8]) -> Mended
    ensures { EndsByRoom (mend_of bytes.now repairs) dest.old result dest.new }
{
    if dest.len() < bytes.len() {
        return Err(Fault::NoRoom);
    }
    lay(dest, bytes);
    Ok((bytes.len(), repairs))
}

// The four steps, made in a room of their own, since a refusal changes no byte of the destination.
fn rework_in(payload: &[u8], room: &mut [u8], dest: &mut [u8]) -> Mended
    requires { (length payload.now ≤ length room.old) × (length payload.now ≤ most_mended) }
    ensures { EndsByReader (mend_by_steps payload.now) dest.old result dest.new }
{
    let swept = sweep(payload, room);
    let all = swept.bytes;
    let lines = swept.lines;
    let end = end_of(&room[0..all], lines);
    let repairs = Repairs {
        breaks: swept.breaks,
        spaces: payload.len() - swept.pairs - all,
        lines: all - end,
    };
    verdict(&room[0..end])?;
    lay_mended(&room[0..end], repairs, dest)
}

// The four steps on a payload that the reader refuses. A room is cleared before it is used, and one of 2,048 bytes or more
// is cleared byte by byte: most payloads fit into a smaller one.
fn rework(payload: &[u8], dest: &mut [u8]) -> Mended
    requires { length payload.now ≤ most_mended }
    ensures { EndsByReader (mend_by_steps payload.now) dest.old result dest.new }
{
    if payload.len() <= SHORT {
        let mut room = [0; SHORT];
        return rework_in(payload, &mut room, dest);
    }
    let mut room = [0; MOST];
    rework_in(payload, &mut room, dest)
}

// What the reader accepts comes back unchanged; else the payload is mended, and written if the reader accepts what comes
// of it. A refusal changes no byte of the destination.
pub fn mend(payload: &[u8], dest: &mut [u8]) -> Mended
    ensures { IsMended payload.now dest.old result dest.new }
{
    if MOST < payload.len() {
        return Err(Fault::TooManyBytes);
    }
    match verdict(payload) {
        Ok(_) => {
            let none = Repairs {
                breaks: 0,
                spaces: 0,
                lines: 0,
            };
            lay_mended(payload, none, dest)
        }
        Err(_) => rework(payload, dest),
    }
}
