// A viewer: it keeps hold of a payload, and hands out line after line.

#![tactic(auto)]

ghost use Rattle.std.specs.Prelude.{◌≡◌};
ghost use Rattle.viewer.specs.View.{is_done, next_from, standing};
ghost use Rattle.viewer.specs.Held.{IsBegun, IsOpened, IsLine, IsNext};

use lines::line_at;
use sieve::Answer;
use swiss_judge::verdict;

// The payload, the place where the next line starts, and what the reader answers.
#[derive(Clone, Copy)]
pub struct Viewer<'a> {
    payload: &'a [u8],
    at: usize,
    pub answer: Answer,
}

// What a viewer holds beside its payload when it is opened.
#[derive(Clone, Copy)]
struct Begun {
    at: usize,
    answer: Answer,
}

// No line of a refused payload is handed out: its viewer begins past the last one.
fn begin(payload: &[u8]) -> Begun
    ensures { IsBegun payload.now result }
{
    let past = payload.len() + 1;
    match verdict(payload) {
        Ok((n, k)) => Begun {
            at: 0,
            answer: Ok((n, k)),
        },
        Err(f) => Begun {
            at: past,
            answer: Err(f),
        },
    }
}

// No line starts past the payload's end.
fn is_done(payload: &[u8], at: usize) -> bool
    ensures { result ≡ is_done payload.now at }
{
    payload.len() < at
}

// The line that starts at a place, without its break; past the end an empty part.
fn line_from<'a>(payload: &'a [u8], at: usize) -> &'a [u8]
    ensures { IsLine payload.entry at result }
{
    if payload.len() < at {
        let end = payload.len();
        return &payload[end..end];
    }
    let line = line_at(payload, at);
    let end = line.end;
    &payload[at..end]
}

// Where the line after that one starts; past the end where none follows.
fn after(payload: &[u8], at: usize) -> usize
    ensures { result ≡ next_from payload.now at }
{
    let line = line_at(payload, at);
    let next = line.next;
    if next == line.end {
        return payload.len() + 1;
    }
    next
}

// Opens a payload: the viewer stands at the first line of an accepted one.
pub fn open<'a>(payload: &'a [u8]) -> Viewer<'a>
    ensures { IsOpened payload.entry result }
{
    let begun = begin(payload);
    Viewer {
        payload,
        at: begun.at,
        answer: begun.answer,
    }
}

// Whether there is no line any more: past the last line, and from the first on where the payload is refused.
pub fn done<'a>(v: Viewer<'a>) -> bool
    ensures { result ≡ is_done v.entry.payload.now v.entry.at }
{
    is_done(v.payload, v.at)
}

// The line at which the viewer stands, as that part of the payload, without its break; an empty part where it is done.
pub fn line<'a>(v: Viewer<'a>) -> &'a [u8]
    ensures { IsLine v.entry.payload v.entry.at result }
{
    line_from(v.payload, v.at)
}

// The viewer one line on; where it is done it stays so.
pub fn next<'a>(v: Viewer<'a>) -> Viewer<'a>
    ensures { IsNext v.entry result }
{
    Viewer {
        payload: v.payload,
        at: after(v.payload, v.at),
        answer: v.answer,
    }
}

// Where a viewer stands that was opened on the payload and moved on so many times. Past the last line nothing changes, so no
// more moves are made than there are lines, however many are asked for.
fn place_after(payload: &[u8], moves: usize) -> usize
    ensures { result ≡ standing payload.now moves }
{
    let begun = begin(payload);
    let past = payload.len() + 1;
    let mut at = begun.at;
    for _ in 0..moves {
        if at == past {
            return past;
        }
        at = after(payload, at);
    }
    at
}

// The line at which a viewer stands that was opened on the payload and moved on so many times.
pub fn line_after<'a>(payload: &'a [u8], moves: usize) -> &'a [u8]
    ensures { IsLine payload.entry (standing payload.now moves) result }
{
    line_from(payload, place_after(payload, moves))
}

// Whether such a viewer is done.
pub fn done_after(payload: &[u8], moves: usize) -> bool
    ensures { result ≡ is_done payload.now (standing payload.now moves) }
{
    is_done(payload, place_after(payload, moves))
}
