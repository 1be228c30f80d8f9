// Reading values from a message in either byte order.
#![tactic(auto)]

pub mod reading;
mod text;
