// What comes in: the bytes of an input, as many of them as a buffer holds.

#![tactic(auto)]

ghost use Rattle.std.specs.Prelude.{◌≤◌, IfSome, length};

use std::io::Read;

// Fills the buffer until it is full or the input ends, and answers how many bytes came; nothing where a read fails, since
// the input is not whole then, and a part of it could pass for a bill.
pub fn read_all<R: Read>(input: &mut R, buffer: &mut [u8]) -> Option<usize>
    ensures { IfSome result (λ n. n ≤ length buffer.new) }
{
    let mut at = 0;
    while at < buffer.len() {
        match input.read(&mut buffer[at..]) {
            Ok(0) => return Some(at),
            Ok(more) => at += more,
            Err(_) => return None,
        }
    }
    Some(at)
}
