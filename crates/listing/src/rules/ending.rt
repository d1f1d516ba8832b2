// The last line of a rehearsal.
ghost use Rattle.std.specs.Prelude.{◌≤◌, length};
ghost use Rattle.election.specs.Listing.{end_line};
ghost use Rattle.election.specs.Schedule.{refusal_of, offset_of};
ghost use Rattle.text.specs.Wrote.{Wrote};

use election::Stopped;
use text::rules::{Decimal, Text};

// Writes the last line: end and the schedule's length, or the refusal's number and its offset.
#[tactic(auto, unfolding(election::specs::Listing::end_line))]
pub fn put_end_line(refusal: u8, at: usize, buffer: &mut [u8]) -> usize
    requires { length (end_line refusal at) ≤ length buffer.old }
    ensures { Wrote (end_line refusal at) buffer.old result buffer.new }
{
    let at = Decimal(at as u64);
    if refusal == 0 {
        return ("end ", at, "\n").put(buffer);
    }
    let refused = ("refused ", Decimal(u64::from(refusal)), " at ");
    (refused, at, "\n").put(buffer)
}

// Writes the last line of a schedule that ended so.
pub fn write_end(ended: Result<usize, Stopped>, buffer: &mut [u8]) -> usize
    requires { length (end_line (refusal_of ended) (offset_of ended)) ≤ length buffer.old }
    ensures { Wrote (end_line (refusal_of ended) (offset_of ended)) buffer.old result buffer.new }
{
    match ended {
        Ok(size) => put_end_line(0, size, buffer),
        Err(Stopped { at, refusal }) => put_end_line(refusal.number(), at, buffer),
    }
}
