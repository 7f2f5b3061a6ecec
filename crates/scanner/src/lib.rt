// A payload that comes in bits: they are kept as they arrive, and the reader is asked at the close.

#![tactic(auto)]

ghost use Rattle.std.specs.Prelude.{◌≡◌};
ghost use Rattle.scanner.specs.Scanning.{fresh, held_in, handed_over, IsClosed};

use reader::read;
use runs::lay;
use sieve::{Answer, Fault};
use swiss::Edition;

// A length that notes that there were too many bytes.
const TOO_MANY: usize = 998;

// A bit more, in a room that is lent: it is put behind the bytes that are held in the room's front, and the answer is how
// many these are then. Where it does not fit, or there were too many before, the answer is 998, and no byte has changed.
pub fn hand_over(held: &mut [u8], length: usize, bit: &[u8]) -> usize
    ensures { held_in held.new result ≡ handed_over (held_in held.old length) bit.now }
{
    let mut most = Edition::MOST_BYTES;
    if held.len() < most {
        most = held.len();
    }
    if most < length {
        return TOO_MANY;
    }
    if most - length < bit.len() {
        return TOO_MANY;
    }
    let together = length + bit.len();
    lay(&mut held[length..], bit);
    together
}

// What has arrived so far: its bytes, in the front of the room. A length over 997 notes that there were too many.
#[derive(Clone, Copy)]
pub struct Scan {
    pub bytes: [u8; Edition::MOST_BYTES],
    pub len: usize,
}

impl Scan {
    // Nothing has arrived; the room has 997 zero bytes.
    pub fn begin() -> Scan
        ensures { result ≡ fresh }
    {
        Scan {
            bytes: [0; Edition::MOST_BYTES],
            len: 0,
        }
    }

    // A bit more: it is put behind what is held or, where it does not fit, it is noted that there were too many bytes.
    pub fn hand(self, bit: &[u8]) -> Scan
        ensures { result ≡ handed_over self bit.now }
    {
        let mut bytes = self.bytes;
        let len = hand_over(&mut bytes, self.len, bit);
        Scan { bytes, len }
    }

    // What the reader answers under an edition on all that arrived, with the places of its lines in the list.
    pub fn close(self, edition: Edition, list: &mut [u16]) -> Answer
        ensures { IsClosed edition self list.old result list.new }
    {
        let n = self.len;
        if Edition::MOST_BYTES < n {
            return Err(Fault::TooManyBytes);
        }
        let bytes = self.bytes;
        read(&bytes[0..n], edition, list)
    }
}
