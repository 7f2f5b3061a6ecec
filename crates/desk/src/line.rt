// Text laid part by part in a buffer. Each function answers where the text ends then. A part that does not fit is left
// out: callers see to it that there is room.
ghost use Rattle.std.specs.Prelude.{◌<◌, ◌≤◌, length};

use runs::lay;

pub fn add(line: &mut [u8], at: usize, text: &[u8]) -> usize
    ensures { result ≤ length line.new }
{
    if line.len() < at {
        return line.len();
    }
    at + lay(&mut line[at..], text)
}

pub fn add_number(line: &mut [u8], at: usize, n: u64) -> usize
    ensures { result ≤ length line.new }
{
    let mut digits = [0u8; 20];
    let k = io::decimal(n, &mut digits);
    add(line, at, &digits[..k])
}

// A number with a text before it.
pub fn add_named(line: &mut [u8], at: usize, name: &[u8], n: u64) -> usize
    ensures { result ≤ length line.new }
{
    let behind = add(line, at, name);
    add_number(line, behind, n)
}

fn hex_digit(n: u8) -> u8
    requires { n < 16 }
{
    if n < 10 { b'0' + n } else { b'A' - 10 + n }
}

// A byte of a name. Control bytes, and the backslash that stands before such a byte's number, are told by their number:
// so no name breaks a line, and no two names are told alike.
fn add_escaped(line: &mut [u8], at: usize, x: u8) -> usize
    ensures { result ≤ length line.new }
{
    if (x < 0x20) | (x == 0x7F) | (x == b'\\') {
        return add(
            line,
            at,
            &[b'\\', b'x', hex_digit(x / 16), hex_digit(x % 16)],
        );
    }
    add(line, at, &[x])
}

// A name takes at most four times its bytes.
pub fn add_name(line: &mut [u8], at: usize, name: &[u8]) -> usize {
    let mut end = at;
    for x in name {
        end = add_escaped(line, end, *x);
    }
    end
}
