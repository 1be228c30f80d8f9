// Writing messages: values as bytes, and an outbox that keeps whole messages only.
#![tactic(auto)]

pub mod drafts;
pub mod writing;
