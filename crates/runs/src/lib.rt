// Runs of bytes: counting, comparing and copying them.

#![tactic(auto)]

ghost use Rattle.std.specs.Prelude.{◌≡◌, ◌+◌, ◌≤◌, ltb, length};
ghost use Rattle.sieve.specs.Bytes.{same, every};
ghost use Rattle.sieve.specs.Characters.{characters};
ghost use Rattle.runs.specs.CharacterKinds.{of_kind};
ghost use Rattle.runs.specs.Laid.{fitting, over_fitting};

// The characters that begin in at most 255 bytes. Their number has 8 bits, so that the compiler counts 16 bytes at once.
fn begun(s: &[u8]) -> u8
    requires { length s.now ≤ 255 }
    ensures { result ≡ characters s.now }
{
    let mut n: u8 = 0;
    for x in s {
        if !matches!(*x, 0x80..=0xBF) {
            n += 1;
        }
    }
    n
}

// The characters of a line.
pub fn characters(s: &[u8]) -> usize
    ensures { result ≡ characters s.now }
{
    let mut n = 0;
    let mut rest = s;
    while let Some((part, after)) = rest.split_at_checked(255) {
        n += begun(part) as usize;
        rest = after;
    }
    n + begun(rest) as usize
}

// Whether a line has more than so many characters. It has no more characters than bytes, so they are counted only where
// its bytes are more.
pub fn longer(s: &[u8], most: usize) -> bool
    ensures { result ≡ ltb most (characters s.now) }
{
    if s.len() <= most {
        return false;
    }
    most < characters(s)
}

// Whether two lines together have more than so many characters; these, too, are counted only where the bytes are more.
pub fn longer_together(a: &[u8], b: &[u8], most: usize) -> bool
    ensures { result ≡ ltb most (characters a.now + characters b.now) }
{
    if a.len() + b.len() <= most {
        return false;
    }
    most < characters(a) + characters(b)
}

// Whether two runs of bytes are the same.
pub fn same(a: &[u8], b: &[u8]) -> bool
    ensures { result ≡ same a.now b.now }
{
    a == b
}

// A kind of byte.
#[derive(Clone, Copy)]
pub enum Kind {
    Digit,
    Capital,
    DigitOrCapital,
    Alphanumeric,
    Zero,
    // a character by itself: 20 to 7E
    Plain,
}

// Whether a byte is of a kind.
pub fn of_kind(kind: Kind, x: u8) -> bool
    ensures { result ≡ of_kind kind x }
{
    let digit = x.is_ascii_digit();
    let capital = x.is_ascii_uppercase();
    match kind {
        Kind::Digit => digit,
        Kind::Capital => capital,
        Kind::DigitOrCapital => digit | capital,
        Kind::Alphanumeric => x.is_ascii_alphanumeric(),
        Kind::Zero => x == b'0',
        Kind::Plain => matches!(x, b' '..=b'~'),
    }
}

// Whether every byte is of a kind. Each byte is asked, whatever was found of those before it: so the compiler asks 16 at
// once where their number is known.
pub fn every(kind: Kind, s: &[u8]) -> bool
    ensures { result ≡ every (of_kind kind) s.now }
{
    let mut all = true;
    for x in s {
        all = all & of_kind(kind, *x);
    }
    all
}

// Copies items to the front of `dest`, and answers how many; none where they do not fit, and `dest` stays as it is.
pub fn lay<T: Copy>(dest: &mut [T], items: &[T]) -> usize
    ensures value { result ≡ fitting dest.old items.now }
    ensures dest_after { dest.new ≡ over_fitting dest.old items.now }
{
    if dest.len() < items.len() {
        return 0;
    }
    let n = items.len();
    dest[..n].copy_from_slice(items);
    n
}
