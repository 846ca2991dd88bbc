// What the programs share: parts of the memories that they lend, what they read and print, and whole files.
#![tactic(auto)]

pub mod files;
pub mod lent;
pub mod prints;
pub mod reads;
