// The header of a message: its fixed part, its fields as parts of the message, and why it is refused.
#![tactic(auto)]

pub mod fault;
pub mod field;
mod fields;
pub mod fixed;
pub mod header;
