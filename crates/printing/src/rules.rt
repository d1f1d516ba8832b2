// Printing the listings of a schedule, from the fresh system, a buffer of them at a time.
ghost use Rattle.std.specs.Prelude.{◌^◌, ◌<◌, ◌≤◌, length, IfErr, IfOk};
ghost use Rattle.std.specs.Io.KnownBytes.{Appends};
ghost use Rattle.calls.specs.Moved.{MovedNone, TakenTo};
ghost use Rattle.election.specs.Schedule.{most_bytes};
ghost use Rattle.printing.specs.Listings.{listings, Printed};

use calls::{Cut, write_whole};
use election::Stopped;
use layout::rules::fresh;
use simulator::rules::{Stop, go_on};
use std::io::Write;

// How many bytes of listings were printed, and how the schedule ended.
#[derive(Clone, Copy, Debug, PartialEq, Eq)]
pub struct Listed {
    pub size: usize,
    pub ended: Result<usize, Stopped>,
}

// Prints the listings of a schedule of at most 65,536 bytes. Where a write fails, a front of the listings was printed, and the cut counts its bytes.
// The programs test the length: a longer schedule has no listings.
pub fn print_listings<W: Write>(writer: &mut W, bytes: &[u8]) -> Result<Listed, Cut>
    requires { length bytes.now ≤ most_bytes }
    ensures last { IfErr result MovedNone }
    ensures few { IfErr result (λ cut. cut.at < 2 ^ 33) }
    ensures taken { TakenTo result (listings bytes.now) (Appends (W.contents writer.old) (W.contents writer.new)) }
    ensures printed { IfOk result (λ listed. Printed listed bytes.now) }
{
    let mut buffer = [0; 65536];
    let mut s = fresh();
    let mut at = 0;
    let mut size = 0;
    loop {
        let r = go_on(&mut s, at, bytes, true, &mut buffer);
        if let Err(cut) = write_whole(writer, &buffer[..r.size]) {
            return Err(Cut {
                at: size + cut.at,
                last: cut.last,
            });
        }
        size += r.size;
        match r.stop {
            Stop::Full => at = r.at,
            Stop::End => return Ok(Listed {
                size,
                ended: Ok(r.at),
            }),
            Stop::Refused(refusal) => return Ok(Listed {
                size,
                ended: Err(Stopped { at: r.at, refusal }),
            }),
        }
    }
}
