// The girocode.

#![tactic(auto)]

pub mod limits;
