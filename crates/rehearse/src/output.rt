// All that is printed for a schedule: its listings, then the last line.
ghost use Rattle.std.specs.Prelude.{IfErr};
ghost use Rattle.std.specs.Io.KnownBytes.{Appends};
ghost use Rattle.calls.specs.Moved.{MovedNone, TakenTo};
ghost use Rattle.election.specs.Listing.{output};

use calls::{Cut, write_whole};
use election::{Refusal, Stopped};
use listing::rules::ending::write_end;
use printing::rules::{Listed, print_listings};
use std::io::Write;

// Prints what a schedule gives, from the fresh system. Where a write fails, a front of that was printed, and the cut counts its bytes.
// Nothing else in the program writes to standard output.
pub fn rehearse<W: Write>(writer: &mut W, bytes: &[u8]) -> Result<(), Cut>
    ensures last { IfErr result MovedNone }
    ensures taken { TakenTo result (output bytes.now) (Appends (W.contents writer.old) (W.contents writer.new)) }
{
    let listed = if bytes.len() > 65536 {
        Listed {
            size: 0,
            ended: Err(Stopped {
                at: 0,
                refusal: Refusal::ScheduleLong,
            }),
        }
    } else {
        print_listings(writer, bytes)?
    };
    let mut line = [0; 4096];
    let size = write_end(listed.ended, &mut line);
    if let Err(cut) = write_whole(writer, &line[..size]) {
        return Err(Cut {
            at: listed.size + cut.at,
            last: cut.last,
        });
    }
    Ok(())
}
