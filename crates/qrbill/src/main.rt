// Reads a payload from standard input and writes one line: what the reader answers.

#![tactic(auto)]

// The descriptor of standard output.
const STDOUT: i32 = 1;

// A payload of more than 997 bytes is refused whatever follows, so 4,096 are enough to read. Of an input that is not whole
// no byte counts.
fn main(rt: HostRuntime) {
    let mut buffer = io::buffer();
    let mut input = rt.stdin();
    let n = intake::read_all(&mut input, &mut buffer).unwrap_or(0);
    let mut line = [0u8; 32];
    let k = report::report(&buffer[0..n], &mut line);
    io::write_all(STDOUT, &line[0..k]);
}
