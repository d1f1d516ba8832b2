// What is decided of a command before anything is done: turned down for the first test that it fails, or taken. No system is needed for
// it, only what is seen of one: a few values, and of the stations the one that the command names; a rank looks at all of them.
#![tactic(auto)]

ghost use Rattle.std.specs.Prelude.{◌≡◌, true, false, ◌&&◌, ◌+◌, ◌*◌, ◌≤◌, eqb, MatchResult};
ghost use Rattle.lists.specs.First.{first_failed};
ghost use Rattle.fit.specs.Fit.{within};
ghost use Rattle.election.specs.Commands.{SetUp, Start, Crash, Link, Run, Lose, Report, Rank, decode, none_started, number_of, ruling, tests};
ghost use Rattle.election.specs.Sound.{sound};
ghost use Rattle.election.specs.System.{station_of};
ghost use Rattle.election.specs.declared.System.{System};
ghost use Rattle.decision.specs.Decided.{Decides, Few, SeesAll, SeesFor, Values, decided, meaning};

use election::{Refusal, System};
use station::{LAST_TICK, MOST_RANK, Station};

pub mod widths;

// The last tick, as wide as a sum of ticks.
const LAST: u64 = LAST_TICK as u64;

// What is seen of a system. Of the stations only what the decision needs matters: for a start or a crash the one that it names; for a
// rank that nothing else turns down, whether one was ever started.
#[derive(Clone, Copy)]
pub struct Seen<'a> {
    pub ready: bool,
    pub clock: bool,
    pub n: u8,
    pub tick: u32,
    pub stations: &'a [Station; 8],
}

impl<'a> From<&'a System> for Seen<'a> {
    ghost from_gives = { λ s seen. SeesAll s.now seen };

    // What is seen of a whole system.
    fn from(s: &'a System) -> Seen<'a> {
        Seen {
            ready: s.ready,
            clock: s.clock,
            n: s.n,
            tick: s.tick,
            stations: &s.stations,
        }
    }
}

// A command that is taken, with its operands.
#[derive(Clone, Copy, Debug, PartialEq, Eq)]
pub enum Command {
    SetUp { clock: bool, n: u8, period: u8 },
    Start(u8),
    Crash(u8),
    Link { from: u8, to: u8, delay: u8 },
    Run(u32),
    Lose { from: u8, to: u8 },
    Report,
    Rank { station: u8, rank: u8 },
}

impl Seen<'_> {
    // The system is set up.
    fn is_set_up(&self) -> Result<(), Refusal>
        ensures { MatchResult result (λ u. self.now.ready ≡ true) (λ why. (self.now.ready ≡ false) × (why ≡ Refusal.NotSetUp)) }
    {
        if self.ready {
            Ok(())
        } else {
            Err(Refusal::NotSetUp)
        }
    }

    // Station p, which is one of them.
    fn station(&self, p: u8) -> Result<&Station, Refusal>
        ensures { MatchResult result (λ x. (p ≤ 8) × (within 1 p self.now.n ≡ true) × (x.now ≡ station_of self.now.stations.now p)) (λ why. (self.now.n ≤ 8 → within 1 p self.now.n ≡ false) × (why ≡ Refusal.StationRange)) }
    {
        match p {
            1..=8 if p <= self.n => Ok(&self.stations[usize::from(p) - 1]),
            _ => Err(Refusal::StationRange),
        }
    }

    // Set up of either kind of head, with operands in range.
    fn set_up(&self, clock: bool, n: u8, period: u8) -> Result<Command, Refusal>
        ensures { Decides self.now (SetUp clock n period) result }
    {
        if self.ready {
            return Err(Refusal::SetUpTwice);
        }
        match n {
            2..=8 => match period {
                16..=255 => Ok(Command::SetUp { clock, n, period }),
                _ => Err(Refusal::PeriodRange),
            },
            _ => Err(Refusal::StationsRange),
        }
    }

    // A station starts, if it is down and not worn out.
    fn start(&self, p: u8) -> Result<Command, Refusal>
        ensures { Decides self.now (Start p) result }
    {
        self.is_set_up()?;
        let x = self.station(p)?;
        if x.up {
            return Err(Refusal::StationUp);
        }
        match x.incarnation {
            0..=4094 => Ok(Command::Start(p)),
            _ => Err(Refusal::WornOut),
        }
    }

    // A station crashes, if it is up.
    fn crash(&self, p: u8) -> Result<Command, Refusal>
        ensures { Decides self.now (Crash p) result }
    {
        self.is_set_up()?;
        if !self.station(p)?.up {
            return Err(Refusal::StationDown);
        }
        Ok(Command::Crash(p))
    }

    // A command about a link, that is taken unless it is turned down as lose is.
    fn between(&self, from: u8, to: u8) -> Result<(), Refusal>
        ensures { (s : System) → Values s self.now → Few self.now → MatchResult result (λ u. first_failed (tests s (Lose from to)) ≡ 0) (λ why. first_failed (tests s (Lose from to)) ≡ number_of why) }
    {
        self.is_set_up()?;
        self.station(from)?;
        self.station(to)?;
        if from == to {
            return Err(Refusal::SameStation);
        }
        Ok(())
    }

    // A link gets a delay; every byte is one.
    fn link(&self, from: u8, to: u8, delay: u8) -> Result<Command, Refusal>
        ensures { Decides self.now (Link from to delay) result }
    {
        self.between(from, to)?;
        Ok(Command::Link { from, to, delay })
    }

    // The messages under way on a link vanish.
    fn lose(&self, from: u8, to: u8) -> Result<Command, Refusal>
        ensures { Decides self.now (Lose from to) result }
    {
        self.between(from, to)?;
        Ok(Command::Lose { from, to })
    }

    // A report, once the system is set up.
    fn report(&self) -> Result<Command, Refusal>
        ensures { Decides self.now Report result }
    {
        self.is_set_up()?;
        Ok(Command::Report)
    }

    // A run of at least one tick, not past the last.
    fn run(&self, ticks: u32) -> Result<Command, Refusal>
        ensures { Decides self.now (Run ticks) result }
    {
        self.is_set_up()?;
        match ticks {
            0 => Err(Refusal::NoTicks),
            _ => match u64::from(self.tick) + u64::from(ticks) {
                0..=LAST => Ok(Command::Run(ticks)),
                _ => Err(Refusal::PastLastTick),
            },
        }
    }

    // A station gets a rank, if the heads have flash and no station was ever started.
    fn rank(&self, p: u8, rank: u8) -> Result<Command, Refusal>
        ensures { Decides self.now (Rank p rank) result }
    {
        self.is_set_up()?;
        if self.clock {
            return Err(Refusal::ClockHeads);
        }
        self.station(p)?;
        match rank {
            0..=MOST_RANK if none_started(self.stations) => Ok(Command::Rank { station: p, rank }),
            0..=MOST_RANK => Err(Refusal::AlreadyStarted),
            _ => Err(Refusal::RankRange),
        }
    }
}

// Whether no station was ever started.
pub fn none_started(stations: &[Station; 8]) -> bool
    ensures { result ≡ none_started stations.now }
{
    stations.iter().all(|x| x.incarnation == 0)
}

// The number of two bytes, low byte first.
fn word(low: u8, high: u8) -> u32
    ensures { result ≡ low + 256 * high }
{
    u32::from(u16::from_le_bytes([low, high]))
}

// Decides on the first command of the bytes, for every sound system of which this is seen, as far as the decision needs it.
#[tactic(auto, unfolding(election::specs::Commands::decode))]
pub fn decide(seen: &Seen, bytes: &[u8]) -> Result<Command, Refusal>
    ensures { (s : System) → sound s ≡ true → SeesFor s seen.now bytes.now → meaning result ≡ decided (ruling s bytes.now) (decode bytes.now) }
{
    match bytes {
        [1, n, period, ..] => seen.set_up(false, *n, *period),
        [2, p, ..] => seen.start(*p),
        [3, p, ..] => seen.crash(*p),
        [4, from, to, delay, ..] => seen.link(*from, *to, *delay),
        [5, low, high, ..] => seen.run(word(*low, *high)),
        [6, from, to, ..] => seen.lose(*from, *to),
        [7, ..] => seen.report(),
        [8, p, rank, ..] => seen.rank(*p, *rank),
        [9, n, period, ..] => seen.set_up(true, *n, *period),
        [] | [1..=9, ..] => Err(Refusal::MissingOperand),
        _ => Err(Refusal::UnknownCommand),
    }
}
