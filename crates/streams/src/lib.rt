// The stream of fields that a save is: read from the front, each frame in it a write, and judged up
// to its first fault. (added)
#![tactic(auto, using(octets::proofs::Choosing::tests))]

pub mod judge;
pub mod means;
pub mod shape;
pub mod stream;

// The most bytes that a save has.
pub const LONGEST_SAVE: usize = 16_777_216;
