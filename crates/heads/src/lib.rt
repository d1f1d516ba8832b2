// What is asked of a head by its kind: rules for the desk's crates.
#![tactic(auto)]

pub mod rules;
