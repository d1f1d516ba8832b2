// The cases of the system that a schedule leaves.
use crate::changes::change;
use crate::commands::command_case;
use crate::line::Line;
use crate::listings::listing_case;
use crate::row::{Operation, Row};
use crate::tryouts::tryout_case;

// Runs a case on the system that the row's schedule leaves, with its change, and with the bytes after the schedule.
pub fn desk_case(name: Line, row: &Row, operation: Operation, bytes: &mut [u8]) -> Option<Line> {
    let (schedule, rest) = bytes.split_at_mut_checked(row.cut)?;
    let mut s = simulator::schedule(schedule).system;
    change(&mut s, row);
    match operation {
        Operation::List => Some(listing_case(name, &s, rest)),
        Operation::TryOut => tryout_case(name, row, &s, rest),
        _ => Some(command_case(name, operation, s, rest)),
    }
}
