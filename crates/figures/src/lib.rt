// The numbers of demand 3 for a system, each computed as crates/settling defines it.
#![tactic(auto)]

mod leader;
pub mod rules;
mod stations;

// The longest start-up wait left, the longest timeout, the period, how many heads are up, and the first of them, 0 where none is up.
#[derive(Clone, Copy)]
pub struct Figures {
    pub wait: u32,
    pub timeout: u32,
    pub period: u32,
    pub heads: u8,
    pub leader: u8,
}
