// The listing of a system, written into a buffer that the caller lends: piece after piece, each into the part of the buffer that is left; and the
// search for agreement, which finds its verdict.
#![tactic(auto)]

ghost use Rattle.std.specs.Prelude.{◌≡◌};
ghost use Rattle.election.specs.Listing.{listed, said};

use crate::shown::Shown;
use election::{Refusal, System};
use soundness::sound;
use text::rules::Text;

mod parts;
pub mod rules;
pub mod search;
pub mod shown;

// Writes the listing of a system into the front of the buffer, or leaves the buffer as it is.
pub fn listing(s: &System, buffer: &mut [u8]) -> Result<usize, Refusal>
    ensures { said result buffer.new ≡ listed s.now buffer.old }
{
    if !sound(s) {
        return Err(Refusal::Unsound);
    }
    if !s.ready {
        return Err(Refusal::NotSetUp);
    }
    let text = Shown {
        clock: s.clock,
        n: s.n,
        tick: s.tick,
        stations: &s.stations,
        sent: &s.sent,
    }
    .text();
    if buffer.len() < text.size() {
        return Err(Refusal::BufferShort);
    }
    Ok(text.put(buffer))
}
