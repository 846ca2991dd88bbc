// Saves: both memories of a processor as a stream of fields, each frame in it a command that writes.
// A save is written, and replayed. (added)
#![tactic(auto)]

pub mod replay;
pub mod save;
