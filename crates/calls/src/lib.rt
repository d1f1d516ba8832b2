// Reading an input whole, and writing a text whole, over any reader and writer, in as many calls as it takes.
#![tactic(auto)]

ghost use Rattle.std.specs.Prelude.{◌<◌, ◌≤◌, length, take, Some, IfErr, IfOk, IsErr};
ghost use Rattle.std.specs.Io.KnownBytes.{Appends, Consumes, IsAtEnd};
ghost use Rattle.calls.specs.Calls.{Whole};
ghost use Rattle.calls.specs.Moved.{MovedNone, TakenTo};

use std::io;
use std::io::{Read, Write};

pub mod streams;

// Where reading or writing stopped short: how many bytes had come or were taken before, and what the last call answered: it failed, or moved nothing.
#[derive(Debug, Drop)]
pub struct Cut {
    pub at: usize,
    pub last: io::Result<usize>,
}

// How far a buffer was filled: how many bytes came, and what the last read answered: 0 where it found the end of the input, or where none was made.
#[derive(Clone, Copy, Debug, PartialEq, Eq)]
pub struct Filled {
    pub size: usize,
    pub last: usize,
}

// Reads to the front of a buffer until it is full or the input ends. Where a read fails, the bytes that came before are there.
pub fn read_whole<R: Read>(reader: &mut R, buffer: &mut [u8]) -> Result<Filled, Cut>
    ensures bound { IfOk result (λ filled. filled.size ≤ length buffer.new) }
    ensures whole { IfOk result (λ filled. Whole (Some filled.last) filled.size (length buffer.new)) }
    ensures bytes { IfOk result (λ filled. Consumes (R.remaining reader.old) (R.remaining reader.new) (take filled.size buffer.new)) }
    ensures end { IfOk result (λ filled. filled.size < length buffer.new → IsAtEnd (R.remaining reader.new)) }
    ensures cut_bound { IfErr result (λ cut. cut.at < length buffer.new) }
    ensures cut_last { IfErr result (λ cut. IsErr cut.last) }
    ensures cut_bytes { IfErr result (λ cut. Consumes (R.remaining reader.old) (R.remaining reader.new) (take cut.at buffer.new)) }
{
    let mut at = 0;
    let mut came = 0;
    // a read brings as many bytes as it likes, so no iterator says where the next goes; read_exact says nothing of a short input
    while at < buffer.len() {
        match reader.read(&mut buffer[at..]) {
            Ok(0) => return Ok(Filled { size: at, last: 0 }),
            Ok(n) => {
                at += n;
                came = n;
            }
            last => return Err(Cut { at, last }),
        }
    }
    Ok(Filled {
        size: at,
        last: came,
    })
}

// Writes a text. Where a write fails or takes nothing, a front of the text was taken, and not all of it.
pub fn write_whole<W: Write>(writer: &mut W, text: &[u8]) -> Result<(), Cut>
    ensures last { IfErr result MovedNone }
    ensures taken { TakenTo result text.now (Appends (W.contents writer.old) (W.contents writer.new)) }
{
    let mut at = 0;
    // std's write_all says nothing of what was taken before an error, and tries an interrupted write again
    while at < text.len() {
        match writer.write(&text[at..]) {
            Ok(n) if n > 0 => at += n,
            last => return Err(Cut { at, last }),
        }
    }
    Ok(())
}

// Writes a message that nothing rests on. What a write doesn't take is lost.
pub fn write_message<W: Write>(writer: &mut W, message: &[u8]) -> Result<(), Cut>
    ensures last { IfErr result MovedNone }
    ensures taken { TakenTo result message.now (Appends (W.contents writer.old) (W.contents writer.new)) }
{
    write_whole(writer, message)
}
