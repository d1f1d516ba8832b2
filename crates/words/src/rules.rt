// Words, written at the front of a buffer that has room: the caller has counted.
pub mod doings;
pub mod reasons;
