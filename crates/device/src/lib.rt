// What a processor does: what each command would do, executing it, and receiving a frame.
// (mock_device.rs)
#![tactic(auto)]

mod effect;
pub mod execute;
