// Commands, responses and what they hold by the numbers of the bench's table.
#![tactic(auto)]

pub mod records;
pub mod values;
