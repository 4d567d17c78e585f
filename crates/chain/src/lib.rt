// The interface through which every job chain is reached, and the refusals of all calls.

#![tactic(auto)]

pub mod interface;
pub mod record;
pub mod refusal;
