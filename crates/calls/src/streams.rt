// Writing a text to one of two writers: in a program its standard output and its standard error.
ghost use Rattle.std.specs.Prelude.{IfErr};
ghost use Rattle.calls.specs.Moved.{MovedNone, TakenTo};
ghost use Rattle.calls.specs.Streams.{descriptor_of, Goes};

use crate::{Cut, write_whole};
use std::io::Write;

// Where a text goes.
#[derive(Clone, Copy, Debug, PartialEq, Eq)]
pub enum Stream {
    Output,
    Error,
}

// Writes a text to one of the two. Where a write fails or takes nothing, a front of the text was taken, and not all of it.
pub fn write_to<O: Write, E: Write>(
    out: &mut O,
    err: &mut E,
    stream: Stream,
    text: &[u8],
) -> Result<(), Cut>
    ensures last { IfErr result MovedNone }
    ensures taken { TakenTo result text.now
        (Goes (descriptor_of stream) (O.contents out.old) (O.contents out.new) (E.contents err.old) (E.contents err.new)) }
{
    match stream {
        Stream::Output => write_whole(out, text),
        Stream::Error => write_whole(err, text),
    }
}
