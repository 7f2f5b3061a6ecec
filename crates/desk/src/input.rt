// What comes in: arguments, standard input, files.
ghost use Rattle.std.specs.Prelude.{◌≤◌, IfSome, length};

use intake::read_all;
use std::env::{Env, FillError};
use std::fs::File;

// Puts an argument in the front of the buffer, or as much of it as the buffer holds, and answers how many bytes that is. A
// missing one is empty.
pub fn argument(rt: &HostRuntime, i: usize, buffer: &mut [u8]) -> usize
    ensures { result ≤ length buffer.new }
{
    match rt.arg(i, buffer) {
        Ok(n) => n,
        Err(FillError::TooLong) => buffer.len(),
        Err(FillError::NotPresent) => 0,
    }
}

// Whether there is an argument of this number.
fn is_given(rt: &HostRuntime, i: usize) -> bool {
    let mut front = [0u8; 1];
    !matches!(rt.arg(i, &mut front), Err(FillError::NotPresent))
}

// How many arguments there are, the program's name counted.
pub fn argument_count(rt: &HostRuntime) -> usize {
    for i in 0..usize::MAX {
        if !is_given(rt, i) {
            return i;
        }
    }
    usize::MAX
}

// Standard input, in the front of the buffer. Where it cannot be read there are no bytes.
pub fn read_input(rt: &HostRuntime, buffer: &mut [u8]) -> usize
    ensures { result ≤ length buffer.new }
{
    let mut input = rt.stdin();
    read_all(&mut input, buffer).unwrap_or(0)
}

// The front of a file; nothing where it cannot be read. A folder opens, and cannot be read; nor can a file whose name is not
// UTF-8, as paths are here.
pub fn read_file(rt: &HostRuntime, name: &[u8], buffer: &mut [u8]) -> Option<usize>
    ensures { IfSome result (λ n. n ≤ length buffer.new) }
{
    let path = str::from_utf8(name).ok()?;
    let mut input = File::open(rt, path).ok()?;
    read_all(&mut input, buffer)
}
