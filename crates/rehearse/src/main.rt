// The rehearsal program: reads a schedule from standard input, and prints a listing at each accepted report, then how it ended.
#![tactic(auto)]

ghost use Rattle.rehearse.specs.Moves.{Ended, Known};

use crate::output::rehearse;
use calls::{Cut, Filled, read_whole, write_message};
use std::io::{Read, Write};

mod output;

// Why the program ended before all was printed: a read failed, or all was read that matters and a write failed or took nothing.
#[derive(Debug, Drop)]
pub enum Failure {
    NotRead(Cut),
    NotPrinted(Filled, Cut),
}

// The program but for its messages: reads a schedule and prints what it gives; answers how much was read. There is room for a byte more than a schedule may
// have, so a longer one is seen to be too long.
fn run<R: Read, W: Write>(reader: &mut R, writer: &mut W) -> Result<Filled, Failure>
    ensures ended { Ended result (R.remaining reader.old) (R.remaining reader.new) (W.contents writer.old) (W.contents writer.new) }
    ensures known { Known result (R.remaining reader.old) (W.contents writer.old) (W.contents writer.new) }
{
    let mut space = [0u8; 65537];
    // by map_err each clause of the call would have to be carried to its answer
    let filled = match read_whole(reader, &mut space) {
        Ok(filled) => filled,
        Err(cut) => return Err(Failure::NotRead(cut)),
    };
    match rehearse(writer, &space[..filled.size]) {
        Ok(()) => Ok(filled),
        Err(cut) => Err(Failure::NotPrinted(filled, cut)),
    }
}

fn main(rt: HostRuntime) {
    let message: &[u8] = match run(&mut rt.stdin(), &mut rt.stdout()) {
        Ok(_) => return,
        Err(Failure::NotRead(_)) => b"rehearse: reading standard input failed\n",
        Err(Failure::NotPrinted(..)) => b"rehearse: writing to standard output failed\n",
    };
    let _ = write_message(&mut rt.stderr(), message);
}
