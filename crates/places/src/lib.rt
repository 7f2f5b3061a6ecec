// The list of places that a walk fills: cleared; and a payload with it, whose lines are found by it.

#![tactic(auto)]

ghost use Rattle.std.specs.Prelude.{◌≡◌, ◌≤◌, replicate};
ghost use Rattle.sieve.specs.Bytes.{Bytes};
ghost use Rattle.sieve.specs.Places.{walk_lines, walk_numbers};
ghost use Rattle.sieve.specs.Lines.{cut, lines_of};
ghost use Rattle.sieve.specs.Rules.{line};
ghost use Rattle.places.specs.Listed.{listed};

use sieve::WALK_NUMBERS;
use std::marker::Model;

// Clears a list: all numbers 0.
pub fn clear(places: &mut [u16; WALK_NUMBERS])
    ensures { places.new ≡ replicate walk_numbers 0 }
{
    *places = [0; WALK_NUMBERS];
}

// A payload that was walked over: its bytes, which a contract sees, with the places of its lines, by the list that the
// walk made.
#[derive(Drop)]
pub struct Payload<'a, 'b> {
    bytes: &'a [u8],
    places: &'b [u16; WALK_NUMBERS],
}

impl<'a, 'b> Model for Payload<'a, 'b> {
    ghost Value = { Bytes };

    ghost view = { λ p. p.bytes.now };

    ghost invariant = { λ p. p.places.now ≡ listed p.bytes.now };
}

impl<'a, 'b> Payload<'a, 'b> {
    pub fn new(bytes: &'a [u8], places: &'b [u16; WALK_NUMBERS]) -> Payload<'a, 'b>
        requires { places.now ≡ listed bytes.now }
        ensures { result ≡ bytes.now }
    {
        Payload { bytes, places }
    }

    // Line n, as that part of the payload: it stays where the list is gone.
    pub fn line(&self, n: usize) -> &'a [u8]
        requires { (1 ≤ n) × (n ≤ walk_lines) }
        ensures { result.now ≡ line n (lines_of (cut self.now)) }
    {
        let start = self.places[2 * n - 2] as usize;
        let end = start + self.places[2 * n - 1] as usize;
        &self.bytes[start..end]
    }
}
