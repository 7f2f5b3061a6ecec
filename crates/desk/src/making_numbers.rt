// Commands that make a reference or an account of their arguments.
use crate::input::argument;
use crate::line::add;
use crate::told::{tell, tell_refusal, write_front};
use sieve::Written;

// More bytes than any part of a number may have: a longer argument is cut to that many, and refused all the same.
const PART_BYTES: usize = 64;

// The number and LF.
fn write_number(number: &[u8]) -> bool {
    let mut line = [0u8; 80];
    let at = add(&mut line, 0, number);
    let end = add(&mut line, at, b"\n");
    write_front(&line, end)
}

fn answer_made(made: Written, dest: &[u8]) {
    match made {
        Err(fault) => tell_refusal(fault),
        Ok(n) => {
            let end = n.min(dest.len());
            if write_number(&dest[0..end]) {
                tell(b"made\n");
            }
        }
    }
}

// Makes a number of the one argument that there is.
fn make_of_one<F: Fn(&[u8], &mut [u8]) -> Written>(rt: &HostRuntime, make: &F)
    requires { F.IsAlwaysCallable make.now }
{
    let mut part = [0u8; PART_BYTES];
    let n = argument(rt, 2, &mut part);
    let mut dest = [0u8; PART_BYTES];
    let made = make(&part[0..n], &mut dest);
    answer_made(made, &dest);
}

pub fn make_qrr(rt: &HostRuntime) {
    make_of_one(rt, &making::make_qrr);
}

pub fn make_scor(rt: &HostRuntime) {
    make_of_one(rt, &making::make_scor);
}

pub fn make_iban(rt: &HostRuntime) {
    let mut country = [0u8; PART_BYTES];
    let mut iid = [0u8; PART_BYTES];
    let mut account = [0u8; PART_BYTES];
    let c = argument(rt, 2, &mut country);
    let i = argument(rt, 3, &mut iid);
    let a = argument(rt, 4, &mut account);
    let mut dest = [0u8; PART_BYTES];
    let made = making::make_iban(&country[0..c], &iid[0..i], &account[0..a], &mut dest);
    answer_made(made, &dest);
}
