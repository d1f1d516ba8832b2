// Text in a buffer: words, decimal numbers, counts with commas between them, and hex.
#![tactic(auto)]

pub mod rules;
