// Tries one command out on the system that a schedule leaves: the schedule comes from standard input, the command as hex arguments.
#![tactic(auto)]

ghost use Rattle.tryout.specs.Moves.{Ended, Known};

use crate::command::{WrongArguments, read_command};
use crate::told::put_said;
use arguments::gather;
use calls::streams::write_to;
use calls::{Cut, Filled, read_whole, write_message};
use std::io::{Read, Write};

mod command;
mod told;

// Why the program ended before all was said: a read failed, or all was read that matters and a write failed or took nothing.
#[derive(Debug, Drop)]
pub enum Failure {
    NotRead(Cut),
    NotWritten(Filled, Cut),
}

// The program but for its arguments and its messages: reads a schedule, and says what the command would do, on standard output for an
// accepted schedule, on standard error for a refused one; answers how much was read. There is room for a byte more than a schedule may
// have, so a longer one is seen to be too long. Nothing else in the program writes to standard output.
fn run<R: Read, O: Write, E: Write>(
    reader: &mut R,
    out: &mut O,
    err: &mut E,
    bytes: &[u8],
) -> Result<Filled, Failure>
    ensures ended { Ended result bytes.now (R.remaining reader.old) (R.remaining reader.new)
        (O.contents out.old) (O.contents out.new) (E.contents err.old) (E.contents err.new) }
    ensures known { Known result bytes.now (R.remaining reader.old)
        (O.contents out.old) (O.contents out.new) (E.contents err.old) (E.contents err.new) }
{
    let mut space = [0u8; 65537];
    // by map_err each clause of the call would have to be carried to its answer
    let filled = match read_whole(reader, &mut space) {
        Ok(filled) => filled,
        Err(cut) => return Err(Failure::NotRead(cut)),
    };
    let mut shown = [0; 4096];
    let mut text = [0; 65536];
    let said = put_said(&space[..filled.size], bytes, &mut shown, &mut text);
    match write_to(out, err, said.stream, &text[..said.size]) {
        Ok(()) => Ok(filled),
        Err(cut) => Err(Failure::NotWritten(filled, cut)),
    }
}

// Tries the command out, and says what failed.
fn try_out(rt: &HostRuntime, bytes: &[u8]) {
    let message: &[u8] = match run(&mut rt.stdin(), &mut rt.stdout(), &mut rt.stderr(), bytes) {
        Ok(_) => return,
        Err(Failure::NotRead(_)) => b"tryout: reading standard input failed\n",
        Err(Failure::NotWritten(..)) => b"tryout: writing failed\n",
    };
    let _ = write_message(&mut rt.stderr(), message);
}

// Says what is wrong with the arguments, and how they are written.
fn show_usage(rt: &HostRuntime, wrong: &[u8]) {
    let _ = write_message(&mut rt.stderr(), wrong);
    let _ = write_message(
        &mut rt.stderr(),
        b"usage: tryout BYTES < SCHEDULE\nBYTES is one command in hex, as in: tryout 03 01 < night.bin\n",
    );
}

fn main(rt: HostRuntime) {
    let mut line = [0; 4096];
    let mut bytes = [0; 4096];
    let Some(end) = gather(&rt, &mut line) else {
        show_usage(&rt, b"tryout: the arguments are too long\n");
        return;
    };
    match read_command(&line[..end], &mut bytes) {
        Ok(size) => try_out(&rt, &bytes[..size]),
        Err(WrongArguments::NoBytes) => show_usage(&rt, b"tryout: no command\n"),
        Err(WrongArguments::LeftOver) => {
            show_usage(&rt, b"tryout: bytes left over behind the command\n")
        }
        Err(WrongArguments::NoHex) => show_usage(&rt, b"tryout: no hex\n"),
    }
}
