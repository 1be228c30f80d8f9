#![tactic(auto)]

pub mod bank;
pub mod nothing;
pub mod one;
pub mod pair;
