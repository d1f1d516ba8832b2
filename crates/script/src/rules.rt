// What assembling and showing are made of, for the crate and for the programs that stand on it.
pub mod assembling;
pub mod entries;
pub mod finding;
pub mod lines;
pub mod numbers;
pub mod places;
pub mod showing;
pub mod words;
pub mod written;
