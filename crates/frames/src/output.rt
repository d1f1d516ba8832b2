// Printing what some bytes of the text give.
ghost use Rattle.std.specs.Prelude.{◌≡◌, ◌+◌, ◌*◌, ◌^◌, ◌<◌, ◌≤◌, length, IfErr};
ghost use Rattle.std.specs.Io.KnownBytes.{Appends};
ghost use Rattle.calls.specs.Moved.{MovedNone, TakenTo};
ghost use Rattle.frames.specs.Line.{longest_line, after, printed};

use crate::line::Line;
use crate::told::feed;
use calls::{Cut, write_whole};
use std::io::Write;

// Takes a part of the text, and prints the lines that end in it. Where a write fails or takes nothing, a front of them was printed,
// and the cut counts its bytes. Nothing else in the program writes to standard output.
pub fn tell<W: Write>(
    writer: &mut W,
    line: &mut Line,
    bytes: &[u8],
    buffer: &mut [u8],
) -> Result<(), Cut>
    requires { (line.old.number + length bytes.now < 2 ^ 64) × (longest_line * length bytes.now ≤ length buffer.old) }
    ensures line_value { line.new ≡ after line.old bytes.now }
    ensures last { IfErr result MovedNone }
    ensures taken { TakenTo result (printed line.old bytes.now) (Appends (W.contents writer.old) (W.contents writer.new)) }
{
    let size = feed(line, bytes, buffer);
    write_whole(writer, &buffer[..size])
}
