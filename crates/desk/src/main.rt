// What a shell asks of the library, by a command and its arguments. Answers go to standard output, and one line about how
// it went to descriptor 3: last, and only where all before it was written whole. A caller that reads no line there knows
// that the output is not whole.

#![tactic(auto)]

mod files;
mod input;
mod layout;
mod line;
mod making_numbers;
mod payload;
mod told;
mod trying;
mod writing;

use crate::layout::Layout;
use input::argument;

// Runs a command; false where there is none of that name, or it has no sense.
fn run(rt: &HostRuntime, word: &[u8]) -> bool {
    match word {
        b"girocode" => payload::judge_girocode(rt),
        b"mend" => payload::mend(rt),
        b"swift" => payload::map(rt),
        b"each" => files::judge_each(rt, Layout::Swiss),
        b"each-girocode" => files::judge_each(rt, Layout::Girocode),
        b"season" => trying::try_season(rt),
        b"qrr" => making_numbers::make_qrr(rt),
        b"scor" => making_numbers::make_scor(rt),
        b"iban" => making_numbers::make_iban(rt),
        b"write" => return writing::write(rt, Layout::Swiss),
        b"write-girocode" => return writing::write(rt, Layout::Girocode),
        _ => return false,
    }
    true
}

// A command longer than any there is stays unlike all of them where it is cut.
fn main(rt: HostRuntime) {
    let mut word = [0u8; 32];
    let n = argument(&rt, 1, &mut word);
    if !run(&rt, &word[0..n]) {
        told::tell(b"unknown\n");
    }
}
