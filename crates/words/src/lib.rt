// Commands and refusals in words.
#![tactic(auto)]

pub mod rules;
