// What an accepted command does, in words.
ghost use Rattle.std.specs.Prelude.{◌≡◌, ◌≤◌, length};
ghost use Rattle.text.specs.Numbers.{named};
ghost use Rattle.text.specs.Wrote.{Wrote};
ghost use Rattle.words.specs.Doings.{setting_up, linking, doing_of, decided_doing};

use decision::Command;
use election::Refusal;
use text::rules::{Decimal, Text};

// A word and a number behind it.
fn named(word: &'static str, number: u8) -> (&'static str, Decimal)
    ensures { ⟦<(&'static str, Decimal) as Text>⟧.bytes result ≡ named word.now number }
{
    (word, Decimal(u64::from(number)))
}

// Writes what set up does.
#[tactic(auto, unfolding(crate::specs::Doings::setting_up, text::specs::Quoted::text))]
fn put_set_up(clock: bool, n: u8, period: u8, buffer: &mut [u8]) -> usize
    requires { length (setting_up clock n period) ≤ length buffer.old }
    ensures { Wrote (setting_up clock n period) buffer.old result buffer.new }
{
    let period = named(", period ", period);
    if clock {
        (
            named("set up heads with a running clock, stations ", n),
            period,
        )
            .put(buffer)
    } else {
        (named("set up heads with flash, stations ", n), period).put(buffer)
    }
}

// Writes what a link setting does.
#[tactic(auto, unfolding(crate::specs::Doings::linking, text::specs::Quoted::text))]
fn put_link(p: u8, q: u8, d: u8, buffer: &mut [u8]) -> usize
    requires { length (linking p q d) ≤ length buffer.old }
    ensures { Wrote (linking p q d) buffer.old result buffer.new }
{
    let to = named(" to ", q);
    if d == 0 {
        (named("cut the link from ", p), to).put(buffer)
    } else {
        (named("set the link from ", p), to, named(", delay ", d)).put(buffer)
    }
}

// Writes what a command that is taken does.
#[tactic(auto, unfolding(crate::specs::Doings::doing, text::specs::Quoted::text))]
pub fn put_doing(command: Command, buffer: &mut [u8]) -> usize
    requires { length (doing_of command) ≤ length buffer.old }
    ensures { Wrote (doing_of command) buffer.old result buffer.new }
{
    match command {
        Command::SetUp { clock, n, period } => put_set_up(clock, n, period, buffer),
        Command::Start(p) => named("start station ", p).put(buffer),
        Command::Crash(p) => named("crash station ", p).put(buffer),
        Command::Link { from, to, delay } => put_link(from, to, delay, buffer),
        Command::Run(ticks) => ("run, ticks ", Decimal(u64::from(ticks))).put(buffer),
        Command::Lose { from, to } => {
            (
                named("lose what is under way from ", from),
                named(" to ", to),
            )
                .put(buffer)
        }
        Command::Report => "report, which changes nothing".put(buffer),
        Command::Rank { station, rank } => {
            (named("give station ", station), named(" the rank ", rank)).put(buffer)
        }
    }
}

// Writes what a command that was decided on does; of one that is turned down, nothing.
#[tactic(auto, using(text::proofs::Parts::wrote_none))]
pub fn put_decided(decision: Result<Command, Refusal>, buffer: &mut [u8]) -> usize
    requires { length (decided_doing decision) ≤ length buffer.old }
    ensures { Wrote (decided_doing decision) buffer.old result buffer.new }
{
    match decision {
        Ok(command) => put_doing(command, buffer),
        Err(_) => 0,
    }
}
