// Characters of any bytes: runs of those that have one byte, marks of sixteen bytes at once, and how wide a character of a
// set is.

#![tactic(auto)]

ghost use Rattle.std.specs.Prelude.{◌≡◌, ◌*◌, ◌+◌, ◌≤◌, ◌<◌, ◌&&◌, drop, get_or, length, take};
ghost use Rattle.std.specs.Int.Count.{count_trailing_zeros};
ghost use Rattle.sieve.specs.Bytes.{within};
ghost use Rattle.sieve.specs.Iso8859.{iso_byte};
ghost use Rattle.sieve.specs.Latin.{in_one, in_two, in_three, latin};
ghost use Rattle.characters.specs.Runs.{run, accents, characters_in};
ghost use Rattle.characters.specs.Marks.{marks_of, without_first};

use runs::{Kind, of_kind};
use sieve::Charset;

// The byte `k` places after `at`, and 0 past the end.
fn byte(s: &[u8], at: usize, k: usize) -> u8
    ensures { result ≡ get_or (drop at s.now) k 0 }
{
    if at < s.len() {
        if k < s.len() - at {
            return s[at + k];
        }
    }
    0
}

// How many bytes at the front are characters by themselves.
pub fn plain_run(s: &[u8]) -> usize
    ensures { result ≡ run in_one s.now }
{
    s.iter()
        .position(|x| !of_kind(Kind::Plain, *x))
        .unwrap_or(s.len())
}

// C2 then A0 to BF; C3, C4 or C5 then 80 to BF; C8 then 98 to 9B. Umlauts and accents begin with C3, so that is asked
// first.
fn in_two(x: u8, y: u8) -> bool
    ensures { result ≡ in_two x y }
{
    if matches!(x, 0xC3..=0xC5) {
        return matches!(y, 0x80..=0xBF);
    }
    (x == 0xC2) & matches!(y, 0xA0..=0xBF) | (x == 0xC8) & matches!(y, 0x98..=0x9B)
}

// E2 82 AC.
fn in_three(x: u8, y: u8, z: u8) -> bool
    ensures { result ≡ in_three x y z }
{
    (x == 0xE2) & (y == 0x82) & (z == 0xAC)
}

// The width of the allowed character that begins at `at`; 0 where none begins. Most characters are one byte, and all
// others begin with C2 or more: only there are the neighbours read, and none at a break. With E2 begins the euro sign
// alone.
fn width(s: &[u8], at: usize) -> usize
    ensures { result ≡ latin (drop at s.now) }
{
    let x = byte(s, at, 0);
    if of_kind(Kind::Plain, x) {
        return 1;
    }
    if x < 0xC2 {
        return 0;
    }
    let y = byte(s, at, 1);
    if x == 0xE2 {
        if in_three(x, y, byte(s, at, 2)) {
            return 3;
        }
        return 0;
    }
    if in_two(x, y) {
        return 2;
    }
    0
}

// Whether a byte is a character of ISO 8859-1: 20 to 7E, A0 to FF.
fn in_iso(x: u8) -> bool
    ensures { result ≡ iso_byte x }
{
    of_kind(Kind::Plain, x) | matches!(x, 0xA0..=0xFF)
}

// C3, C4 or C5 then 80 to BF: an umlaut, or a letter with an accent.
fn accent(x: u8, y: u8) -> bool
    ensures { result ≡ within 0xC3 0xC5 x && within 0x80 0xBF y }
{
    matches!(x, 0xC3..=0xC5) & matches!(y, 0x80..=0xBF)
}

// How many bytes from `from` on are characters C3, C4 or C5 then 80 to BF: umlauts and accents, which may come in a row.
fn accented(s: &[u8], from: usize) -> usize
    ensures { result ≡ 2 * accents (drop from s.now) }
{
    if s.len() < from {
        return 0;
    }
    let mut n = 0;
    for two in s[from..].chunks_exact(2) {
        if !accent(two[0], two[1]) {
            return n;
        }
        n += 2;
    }
    n
}

// How many bytes at `at` are characters of a set, one or a row of them; 0 where none begins.
pub fn characters_in(set: Charset, s: &[u8], at: usize) -> usize
    ensures { result ≡ characters_in set (drop at s.now) }
{
    match set {
        Charset::Latin => {
            let n = accented(s, at);
            if n != 0 {
                return n;
            }
            width(s, at)
        }
        Charset::Iso8859 => { if in_iso(byte(s, at, 0)) { 1 } else { 0 } }
    }
}

// The mark of the byte at a place: 1 where it is no character by itself, else 0.
fn mark(s: &[u8], at: usize) -> u32
    requires { at + 1 ≤ length s.now }
    ensures { (result ≡ marks_of (take 1 (drop at s.now))) × (result < 2) }
{
    (!of_kind(Kind::Plain, s[at])) as u32
}

// The marks of four bytes. So put together, of 32 bits, the compiler finds those of sixteen bytes at once.
fn four_marks(s: &[u8], at: usize) -> u32
    requires { at + 4 ≤ length s.now }
    ensures { (result ≡ marks_of (take 4 (drop at s.now))) × (result < 16) }
{
    mark(s, at) + 2 * mark(s, at + 1) + 4 * mark(s, at + 2) + 8 * mark(s, at + 3)
}

// The marks of the sixteen bytes from `at` on, a bit for each, the first byte's the lowest.
pub fn marks_at(s: &[u8], at: usize) -> u32
    requires { at + 16 ≤ length s.now }
    ensures { result ≡ marks_of (take 16 (drop at s.now)) }
{
    four_marks(s, at)
        + 16 * four_marks(s, at + 4)
        + 256 * four_marks(s, at + 8)
        + 4096 * four_marks(s, at + 12)
}

// Which byte is the first that is marked, counted from 0; 32 where none is.
pub fn first_marked(marks: u32) -> usize
    ensures { result ≡ count_trailing_zeros 32 marks }
{
    u32::trailing_zeros(marks) as usize
}

// The marks without the first, which is the lowest of their bits.
pub fn later_marks(marks: u32) -> u32
    requires { 0 < marks }
    ensures { result ≡ without_first marks }
{
    marks & (marks - 1)
}
