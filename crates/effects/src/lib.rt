#![tactic(auto)]

pub mod delay;
pub mod delay_interface;
pub mod display;
pub mod interface;
pub mod text;
pub mod tuner;
pub mod tuner_interface;
pub mod value;
