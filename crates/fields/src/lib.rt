// What a packet is made of: addresses, values, and rows of fields. (commands.rs)
#![tactic(auto)]

pub mod addr;
pub mod row;
pub mod value;
