// The rehearsal desk for schedules as text: rehearses a text from standard input, writes its bytes, writes the text of bytes, or tells the figure after it.
#![tactic(auto)]

ghost use Rattle.std.specs.Prelude.{◌≡◌, length};
ghost use Rattle.desk.specs.Spoken.{is_text, SpaceFor, SpareFor, SpokenTo, Went};

use crate::asked::{Mode, read_mode};
use crate::rehearsal::say_rehearsal;
use crate::said::{say_bytes, say_text};
use crate::telling::say_figure;
use arguments::gather;
use calls::{Cut, Filled, read_whole, write_message};
use std::io::{Read, Write};

mod asked;
mod figure;
mod rehearsal;
mod said;
mod telling;
mod wording;

// Why the program failed, once it was asked for something: a read failed, or all was read that matters and a write failed or took nothing.
#[derive(Debug, Drop)]
pub enum Failure {
    Read(Cut),
    Write(Filled, Cut),
}

// Says what a mode makes of what was read.
fn answer<O: Write, E: Write>(
    out: &mut O,
    err: &mut E,
    mode: Mode,
    given: &[u8],
    spare: &mut [u8],
) -> Result<(), Cut>
    requires { SpareFor mode (length spare.old) }
    ensures { SpokenTo mode given.now result
        (O.contents out.old) (O.contents out.new) (E.contents err.old) (E.contents err.new) }
{
    match mode {
        Mode::Rehearse => say_rehearsal(out, err, given, spare),
        Mode::Bytes => say_bytes(out, err, given, spare),
        Mode::Text => say_text(out, err, given, spare),
        Mode::Figure(d) => say_figure(out, err, d, given, spare),
    }
}

// The program but for its arguments, its buffers and its messages: reads into one buffer, and says what the mode makes of it with the room of the other;
// answers how much was read.
fn run<R: Read, O: Write, E: Write>(
    reader: &mut R,
    out: &mut O,
    err: &mut E,
    mode: Mode,
    space: &mut [u8],
    spare: &mut [u8],
) -> Result<Filled, Failure>
    requires space_for { SpaceFor mode (length space.old) }
    requires spare_for { SpareFor mode (length spare.old) }
    ensures { Went result mode (R.remaining reader.old) (R.remaining reader.new) space.new
        (O.contents out.old) (O.contents out.new) (E.contents err.old) (E.contents err.new) }
{
    // by map_err each clause of the call would have to be carried to its answer
    let filled = match read_whole(reader, space) {
        Ok(filled) => filled,
        Err(cut) => return Err(Failure::Read(cut)),
    };
    match answer(out, err, mode, &space[..filled.size], spare) {
        Ok(()) => Ok(filled),
        Err(cut) => Err(Failure::Write(filled, cut)),
    }
}

// Whether what is read is bytes, and what is made of them a text.
fn is_text(mode: Mode) -> bool
    ensures { result ≡ is_text mode }
{
    matches!(mode, Mode::Text)
}

// Room for so many bytes.
fn space<const N: usize>() -> [u8; N]
    ensures { N ≡ length result }
{
    [0; N]
}

// Runs in a mode, with room for a byte more than the longest text and the longest schedule. Whichever is read comes into the larger room or the smaller one.
fn run_in(rt: &HostRuntime, mode: Mode) -> Result<Filled, Failure> {
    let mut big = space::<524289>();
    let mut small = space::<65537>();
    let mut input = rt.stdin();
    let mut out = rt.stdout();
    let mut err = rt.stderr();
    if is_text(mode) {
        return run(
            &mut input,
            &mut out,
            &mut err,
            mode,
            &mut small,
            &mut big[..524288],
        );
    }
    run(
        &mut input,
        &mut out,
        &mut err,
        mode,
        &mut big,
        &mut small[..65536],
    )
}

// Says how the arguments are written.
fn show_usage(rt: &HostRuntime) -> Result<(), Cut> {
    write_message(
        &mut rt.stderr(),
        b"usage: desk < TEXT           rehearses a schedule\n       desk bytes < TEXT     writes its bytes\n       desk text < BYTES     writes the text of a schedule's bytes\n       desk figure D < TEXT  tells the bound on divided ticks after it, for delays up to D ticks, 1 to 255\n",
    )
}

// Runs in a mode, and says what failed.
fn run_or_complain(rt: &HostRuntime, mode: Mode) -> Result<(), Cut> {
    match run_in(rt, mode) {
        Ok(_) => Ok(()),
        Err(Failure::Read(_)) => {
            write_message(&mut rt.stderr(), b"desk: reading standard input failed\n")
        }
        Err(Failure::Write(..)) => write_message(&mut rt.stderr(), b"desk: writing failed\n"),
    }
}

// What a complaint or the usage could not be written is lost: the status is 0 all the same.
fn main(rt: HostRuntime) {
    let mut line = io::buffer();
    let asked = gather(&rt, &mut line).and_then(|end| read_mode(&line[..end]));
    let _ = match asked {
        Some(mode) => run_or_complain(&rt, mode),
        None => show_usage(&rt),
    };
}
