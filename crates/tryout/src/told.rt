// What is said for a schedule and a command, written into a buffer that has room.
ghost use Rattle.std.specs.Prelude.{◌≡◌, true, ◌≤◌, length};
ghost use Rattle.calls.specs.Streams.{descriptor_of};
ghost use Rattle.text.specs.Wrote.{Wrote};
ghost use Rattle.election.specs.Commands.{command, number_of};
ghost use Rattle.election.specs.Listing.{longest_listing};
ghost use Rattle.election.specs.Sound.{sound};
ghost use Rattle.tryout.specs.Told.{table, before, first, heading, answered, command_line, told, turned_down, said, longest_said, descriptor};
ghost use Rattle.tryout.specs.Pieces.{shown_or, after_shown};

use calls::streams::Stream;
use decision::widths::width;
use decision::{Seen, decide};
use dryrun::dry_run;
use election::{Stopped, System};
use listing::shown::{Listing, Shown};
use simulator::schedule;
use text::rules::hex::put_hex;
use text::rules::{Decimal, Either, Text, put};
use words::rules::doings::put_doing;
use words::rules::reasons::{put_refused, reason};

type Table<'a> = Either<Listing<'a>, &'static str>;

// The listing of a system, or that there is none.
#[tactic(auto, unfolding(crate::specs::Told::table, text::specs::Quoted::text))]
fn table<'a>(s: &'a System) -> Table<'a>
    requires { s.now.ready ≡ true → s.now.n ≤ 8 }
    ensures { ⟦<Table<'a> as Text>⟧.bytes result ≡ table s.now }
{
    if !s.ready {
        return Either::Second("nothing is set up\n");
    }
    let shown = Shown {
        clock: s.clock,
        n: s.n,
        tick: s.tick,
        stations: &s.stations,
        sent: &s.sent,
    };
    Either::First(shown.text())
}

// Writes the listing before the command.
#[tactic(auto, unfolding(crate::specs::Told::before, text::specs::Quoted::text))]
fn put_before(s: &System, buffer: &mut [u8]) -> usize
    requires { (s.now.ready ≡ true → s.now.n ≤ 8) × (length (before s.now) ≤ length buffer.old) }
    ensures { Wrote (before s.now) buffer.old result buffer.new }
{
    ("before:\n", table(s)).put(buffer)
}

// Writes a listing that was shown, or that there is none.
#[tactic(auto, unfolding(text::specs::Quoted::text))]
fn put_shown(shown: &[u8], buffer: &mut [u8]) -> usize
    requires { length (shown_or shown.now) ≤ length buffer.old }
    ensures { Wrote (shown_or shown.now) buffer.old result buffer.new }
{
    if shown.is_empty() {
        return "nothing is set up\n".put(buffer);
    }
    put(shown, buffer)
}

// Writes the listing after the command, as it was shown.
#[tactic(auto, unfolding(crate::specs::Pieces::after_shown, text::specs::Quoted::text))]
fn put_after(shown: &[u8], buffer: &mut [u8]) -> usize
    requires { length (after_shown shown.now) ≤ length buffer.old }
    ensures { Wrote (after_shown shown.now) buffer.old result buffer.new }
{
    let at = "after:\n".put(buffer);
    at + put_shown(shown, &mut buffer[at..])
}

// How many bytes the command has, as far as they are there; 1 where it is none.
fn first_size(bytes: &[u8]) -> usize
    ensures { result ≡ length (first bytes.now) }
{
    match bytes {
        [] => 0,
        [b, ..] => (1 + width(*b)).min(bytes.len()),
    }
}

// Writes the bytes of the command.
#[tactic(auto, using(crate::proofs::Telling::first_taken), unfolding(crate::specs::Told::heading, text::specs::Quoted::text))]
fn put_heading(bytes: &[u8], buffer: &mut [u8]) -> usize
    requires { length (heading bytes.now) ≤ length buffer.old }
    ensures { Wrote (heading bytes.now) buffer.old result buffer.new }
{
    let size = first_size(bytes);
    let a = "command".put(buffer);
    let b = a + put_hex(&bytes[..size], &mut buffer[a..]);
    b + ": ".put(&mut buffer[b..])
}

// Writes what the command would do, or its refusal and why.
fn put_answer(s: &System, bytes: &[u8], buffer: &mut [u8]) -> usize
    requires { (sound s.now ≡ true) × (length (answered (command s.now bytes.now).refusal bytes.now) ≤ length buffer.old) }
    ensures { Wrote (answered (command s.now bytes.now).refusal bytes.now) buffer.old result buffer.new }
{
    match decide(&Seen::from(s), bytes) {
        Ok(command) => {
            let at = "would ".put(buffer);
            at + put_doing(command, &mut buffer[at..])
        }
        Err(why) => put_refused(why, buffer),
    }
}

// Writes the line of the command.
#[tactic(auto, unfolding(crate::specs::Told::command_line, text::specs::Quoted::text))]
fn put_command(s: &System, bytes: &[u8], buffer: &mut [u8]) -> usize
    requires { (sound s.now ≡ true) × (length (command_line (command s.now bytes.now).refusal bytes.now) ≤ length buffer.old) }
    ensures { Wrote (command_line (command s.now bytes.now).refusal bytes.now) buffer.old result buffer.new }
{
    let a = put_heading(bytes, buffer);
    let b = a + put_answer(s, bytes, &mut buffer[a..]);
    b + "\n".put(&mut buffer[b..])
}

// Tries a command out, and writes what that tells.
#[tactic(auto, unfolding(crate::specs::Told::told))]
fn put_told(s: &System, bytes: &[u8], space: &mut [u8], buffer: &mut [u8]) -> usize
    requires { (sound s.now ≡ true) × (longest_listing ≤ length space.old) × (length (told s.now bytes.now) ≤ length buffer.old) }
    ensures { Wrote (told s.now bytes.now) buffer.old result buffer.new }
{
    let tried = dry_run(s, bytes, space);
    let size = tried.written;
    let a = put_before(s, buffer);
    let b = a + put_command(s, bytes, &mut buffer[a..]);
    b + put_after(&space[..size], &mut buffer[b..])
}

// Writes that a schedule is refused, where and why.
#[tactic(auto, unfolding(crate::specs::Told::turned_down, crate::specs::Told::because, text::specs::Quoted::text))]
fn put_turned_down(stopped: Stopped, buffer: &mut [u8]) -> usize
    requires { length (turned_down (number_of stopped.refusal) stopped.at) ≤ length buffer.old }
    ensures { Wrote (turned_down (number_of stopped.refusal) stopped.at) buffer.old result buffer.new }
{
    let why = stopped.refusal;
    let refused = (
        "tryout: the schedule is refused: ",
        Decimal(u64::from(why.number())),
    );
    let place = (" at ", Decimal(stopped.at as u64));
    ((refused, place), (", ", reason(why), "\n")).put(buffer)
}

// What was written: where it goes, standard output for an accepted schedule and standard error for a refused one, and how long it is.
#[derive(Clone, Copy, Debug, PartialEq, Eq)]
pub struct Said {
    pub stream: Stream,
    pub size: usize,
}

// Runs a schedule, tries a command out on the system that it leaves, and writes all that is said of it.
pub fn put_said(given: &[u8], bytes: &[u8], space: &mut [u8], buffer: &mut [u8]) -> Said
    requires { (longest_listing ≤ length space.old) × (longest_said ≤ length buffer.old) }
    ensures stream_value { descriptor_of result.stream ≡ descriptor given.now }
    ensures wrote { Wrote (said given.now bytes.now) buffer.old result.size buffer.new }
{
    let r = schedule(given);
    match r.ended {
        Ok(_) => Said {
            stream: Stream::Output,
            size: put_told(&r.system, bytes, space, buffer),
        },
        Err(stopped) => Said {
            stream: Stream::Error,
            size: put_turned_down(stopped, buffer),
        },
    }
}
