// The listings of a schedule on a writer, and where the schedule stopped.
#![tactic(auto)]

pub mod rules;
