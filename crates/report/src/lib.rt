// The line that the program writes of a payload: what the reader of its layout answers.

#![tactic(auto)]

ghost use Rattle.std.specs.Prelude.{◌++◌, ◌≡◌, ◌+◌, ◌≤◌, ◌<◌, length};
ghost use Rattle.std.proofs.Math.Option.{get_or};
ghost use Rattle.sieve.specs.Paper.{paper, paper_fault};
ghost use Rattle.sieve.specs.Verdict.{accepted, refused};
ghost use Rattle.sieve.specs.Decimal.{digit_byte};
ghost use Rattle.swiss.specs.Swiss.{swiss};
ghost use Rattle.girocode.specs.Girocode.{girocode};
ghost use Rattle.runs.specs.Laid.{fitting, over_fitting};
ghost use Rattle.report.specs.Spoken.{in_decimal, spoken_fault, spoken, spoken_in, ThreeDigits};
ghost use Rattle.report.specs.Laying.{said};

use runs::lay;
use sieve::{Answer, Break, Fault, line_of, number_of, place_of};

fn digit(n: usize) -> u8
    requires { n < 10 }
    ensures { result ≡ digit_byte n }
{
    48 + n as u8
}

// A line while it is laid: the room for it, and how far it is laid.
#[derive(Drop)]
struct Line {
    bytes: [u8; 32],
    at: usize,
}

impl Line {
    // A line with nothing on it.
    fn blank() -> Line
        ensures { result.at ≡ 0 }
    {
        Line {
            bytes: [0; 32],
            at: 0,
        }
    }

    // Lays a text behind what is laid.
    fn add(&mut self, text: &[u8])
        requires { self.old.at + length text.now ≤ 32 }
        ensures at_after { self.new.at ≡ self.old.at + length text.now }
        ensures line_after { said self.new ≡ said self.old ++ text.now }
    {
        self.at += lay(&mut self.bytes[self.at..], text);
    }

    // Lays a number in decimal digits.
    fn add_number(&mut self, n: usize)
        requires { (n < 1000) × (self.old.at + 3 ≤ 32) }
        ensures at_after { self.new.at ≡ self.old.at + length (in_decimal n) }
        ensures line_after { said self.new ≡ said self.old ++ in_decimal n }
    {
        let last = digit(n % 10);
        if n < 10 {
            self.add(&[last]);
            return;
        }
        let tens = n / 10;
        let middle = digit(tens % 10);
        if tens < 10 {
            self.add(&[middle, last]);
            return;
        }
        self.add(&[digit(tens / 10), middle, last]);
    }

    // Lays a number with its name before it, as " line 4".
    fn add_named(&mut self, name: &[u8], n: usize)
        requires { (n < 1000) × (self.old.at + length name.now + 3 ≤ 32) }
        ensures at_after { self.new.at ≡ self.old.at + length (name.now ++ in_decimal n) }
        ensures line_after { said self.new ≡ said self.old ++ (name.now ++ in_decimal n) }
    {
        self.add(name);
        self.add_number(n);
    }

    // Lays the place of the byte that a fault points at, or nothing where it points at none.
    fn add_place(&mut self, fault: Fault)
        requires { (get_or (paper_fault fault).place 0 < 1000) × (self.old.at + 9 ≤ 32) }
        ensures upper_bound { self.new.at ≤ self.old.at + 9 }
        ensures at_after { self.new.at ≡ self.old.at + length (spoken_fault fault) }
        ensures line_after { said self.new ≡ said self.old ++ spoken_fault fault }
    {
        match place_of(fault) {
            Some(place) => self.add_named(b" byte ", place),
            None => {}
        }
    }

    fn compose_accepted(&mut self, n: usize, k: Break)
        requires { (n < 1000) × (self.old.at ≡ 0) }
        ensures upper_bound { self.new.at ≤ 32 }
        ensures line_after { said self.new ≡ spoken (accepted n k) }
    {
        self.add_named(b"accepted ", n);
        match k {
            Break::Lf => self.add(b" lines LF\n"),
            Break::CrLf => self.add(b" lines CRLF\n"),
        }
    }

    fn compose_refused(&mut self, fault: Fault)
        requires { ThreeDigits (refused (paper_fault fault)) × (self.old.at ≡ 0) }
        ensures upper_bound { self.new.at ≤ 32 }
        ensures line_after { said self.new ≡ spoken (refused (paper_fault fault)) }
    {
        self.add_named(b"refused ", number_of(fault) as usize);
        self.add_named(b" line ", line_of(fault));
        self.add_place(fault);
        self.add(b"\n");
    }

    fn compose(&mut self, answer: Answer)
        requires { ThreeDigits (paper answer) × (self.old.at ≡ 0) }
        ensures upper_bound { self.new.at ≤ 32 }
        ensures line_after { said self.new ≡ spoken (paper answer) }
    {
        match answer {
            Ok((n, k)) => self.compose_accepted(n, k),
            Err(fault) => self.compose_refused(fault),
        }
    }
}

// Lays the line of an answer in the front of `dest`, and answers how many bytes it has; none where they do not fit, and
// `dest` stays as it is. That they lie in `dest` follows, and is said so that a caller can take them out of it.
fn lay_answer(answer: Answer, dest: &mut [u8]) -> usize
    requires { ThreeDigits (paper answer) }
    ensures value { result ≡ fitting dest.old (spoken (paper answer)) }
    ensures dest_after { dest.new ≡ over_fitting dest.old (spoken (paper answer)) }
    ensures upper_bound { result ≤ length dest.new }
{
    let mut line = Line::blank();
    line.compose(answer);
    lay(dest, &line.bytes[0..line.at])
}

// Lays the line of a payload that is read as a Swiss bill, as `lay_answer` does.
pub fn report(payload: &[u8], dest: &mut [u8]) -> usize
    ensures value { result ≡ fitting dest.old (spoken_in swiss payload) }
    ensures dest_after { dest.new ≡ over_fitting dest.old (spoken_in swiss payload) }
    ensures upper_bound { result ≤ length dest.new }
{
    lay_answer(swiss_judge::verdict(payload), dest)
}

// Lays the line of a payload that is read as a girocode, as `lay_answer` does.
pub fn report_girocode(payload: &[u8], dest: &mut [u8]) -> usize
    ensures value { result ≡ fitting dest.old (spoken_in girocode payload) }
    ensures dest_after { dest.new ≡ over_fitting dest.old (spoken_in girocode payload) }
    ensures upper_bound { result ≤ length dest.new }
{
    lay_answer(giro_judge::verdict(payload), dest)
}
