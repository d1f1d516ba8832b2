// A listing, written into a buffer that has room for it: `listing` asks for it before anything is written.
ghost use Rattle.std.specs.Prelude.{◌≤◌, length};
ghost use Rattle.election.specs.Listing.{listing_of};
ghost use Rattle.text.specs.Wrote.{Wrote};

use crate::shown::Shown;
use text::rules::Text;

pub mod ending;

// Writes the listing of a system at the front of a buffer that has room for it, from what it shows of the system.
pub fn write_listing(s: &Shown, buffer: &mut [u8]) -> usize
    requires { length (listing_of s.now.clock s.now.n s.now.tick s.now.stations.now s.now.sent.now) ≤ length buffer.old }
    ensures { Wrote (listing_of s.now.clock s.now.n s.now.tick s.now.stations.now s.now.sent.now) buffer.old result buffer.new }
{
    s.text().put(buffer)
}
