// Runs of a sound system: rules for the crates above, which test soundness first.
#![tactic(auto)]

mod chance;
mod deliver;
mod due;
pub mod rules;
mod steps;
