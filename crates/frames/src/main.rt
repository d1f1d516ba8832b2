// Reads captured frames as hex text from standard input, one to a line, and prints what each says, or why it is no frame.
#![tactic(auto)]

ghost use Rattle.std.specs.Prelude.{◌≡◌, ◌+◌, ◌*◌, ◌^◌, ◌<◌, ◌≤◌, length, IfErr};
ghost use Rattle.std.specs.Io.KnownBytes.{Appends};
ghost use Rattle.calls.specs.Moved.{MovedNone, TakenTo};
ghost use Rattle.frames.specs.Claims.{ended};
ghost use Rattle.frames.specs.Line.{longest_line, printed};
ghost use Rattle.frames.specs.Moves.{Moves};

use crate::line::Line;
use crate::output::tell;
use calls::{Cut, write_message};
use std::io::{Read, Write};

mod line;
mod output;
mod told;

// Why not all was printed: a read failed, a write failed or took nothing, or it read as often as it may. The cut of a read counts no bytes: it is one call.
#[derive(Debug, Drop)]
pub enum Failure {
    Read(Cut),
    Write(Cut),
    TooLong,
}

// How often the program reads at most: 2^50 times.
const READS: usize = 1125899906842624;

// Tells the last line, if no newline ended it. Where a write fails or takes nothing, the cut counts how many bytes of it were printed.
fn finish<W: Write>(writer: &mut W, line: &mut Line, buffer: &mut [u8]) -> Result<(), Cut>
    requires { (line.old.number + 1 < 2 ^ 64) × (longest_line ≤ length buffer.old) }
    ensures last { IfErr result MovedNone }
    ensures taken { TakenTo result (printed line.old (ended line.old)) (Appends (W.contents writer.old) (W.contents writer.new)) }
{
    if !line.has_begun() {
        return Ok(());
    }
    tell(writer, line, b"\n", buffer)
}

// The program but for its buffers and its messages: reads a text part by part, and prints what each part gives.
fn run<R: Read, W: Write>(
    reader: &mut R,
    writer: &mut W,
    space: &mut [u8],
    buffer: &mut [u8],
) -> Result<(), Failure>
    requires { (0 < length space.old) × (length space.old ≤ 1024) × (longest_line * length space.old ≤ length buffer.old) }
    ensures { Moves result (R.remaining reader.old) (R.remaining reader.new) (W.contents writer.old) (W.contents writer.new) }
{
    let mut line = Line::begin(1);
    for _ in 0..READS {
        let size = match reader.read(space) {
            Ok(size) => size,
            last => return Err(Failure::Read(Cut { at: 0, last })),
        };
        if size == 0 {
            return finish(writer, &mut line, buffer).map_err(Failure::Write);
        }
        tell(writer, &mut line, &space[..size], buffer).map_err(Failure::Write)?;
    }
    Err(Failure::TooLong)
}

fn main(rt: HostRuntime) {
    let mut space = [0u8; 1024];
    let mut buffer = [0u8; 262144];
    let ran = run(&mut rt.stdin(), &mut rt.stdout(), &mut space, &mut buffer);
    let message = match ran {
        Ok(()) => return,
        Err(Failure::Read(_)) => "frames: reading standard input failed\n",
        Err(Failure::Write(_)) => "frames: writing to standard output failed\n",
        Err(Failure::TooLong) => "frames: the input is too long\n",
    };
    let _ = write_message(&mut rt.stderr(), message.as_bytes());
}
