// A rehearsal: the listings of a text's schedule, and how it ended.
ghost use Rattle.std.specs.Prelude.{◌≡◌, ◌≤◌, length, IfErr};
ghost use Rattle.std.specs.Io.KnownBytes.{Appends};
ghost use Rattle.calls.specs.Moved.{MovedNone, TakenTo};
ghost use Rattle.election.specs.Schedule.{most_bytes};
ghost use Rattle.desk.specs.Said.{rehearsed};
ghost use Rattle.desk.specs.Spoken.{SpokenTo};
ghost use Rattle.desk.specs.declared.asked.Mode.TheVariants as modes;

use crate::said::prepare;
use crate::wording::put_ending;
use calls::streams::{Stream, write_to};
use calls::{Cut, write_whole};
use printing::rules::print_listings;
use std::io::Write;

// Rehearses the schedule of a text. Where a write fails, a front of that was printed, and the cut counts its bytes.
fn rehearse<O: Write>(out: &mut O, given: &[u8], bytes: &[u8]) -> Result<(), Cut>
    requires { length bytes.now ≤ most_bytes }
    ensures last { IfErr result MovedNone }
    ensures taken { TakenTo result (rehearsed given.now bytes.now) (Appends (O.contents out.old) (O.contents out.new)) }
{
    let listed = print_listings(out, bytes)?;
    let mut line = io::buffer();
    let n = put_ending(listed.ended, given, bytes, &mut line);
    if let Err(cut) = write_whole(out, &line[..n]) {
        return Err(Cut {
            at: listed.size + cut.at,
            last: cut.last,
        });
    }
    Ok(())
}

// Says the rehearsal of a text.
pub fn say_rehearsal<O: Write, E: Write>(
    out: &mut O,
    err: &mut E,
    given: &[u8],
    bytes: &mut [u8],
) -> Result<(), Cut>
    requires { length bytes.old ≡ most_bytes }
    ensures { SpokenTo modes.Rehearse given.now result
        (O.contents out.old) (O.contents out.new) (E.contents err.old) (E.contents err.new) }
{
    let mut line = io::buffer();
    let r = prepare(given, bytes, &mut line);
    match r {
        Ok(n) => rehearse(out, given, &bytes[..n]),
        Err(n) => write_to(out, err, Stream::Error, &line[..n]),
    }
}
