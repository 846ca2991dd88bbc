// Numbers: the patterns of floats, 5.23 codes, and gain bytes. (fixed_point.rs; Gain of commands.rs)
#![tactic(auto)]

pub mod fixed_point;
pub mod float;
pub mod gain;
