// What an object manager tells: signals, the sinks that take them, and their bodies.
#![tactic(auto)]

pub mod bodies;
mod instance;
pub mod list;
pub mod sink;
