#![tactic(auto)]

pub mod grammar;
pub mod name;
pub mod object_path;
pub mod paths;
pub mod standard;
pub mod types;
