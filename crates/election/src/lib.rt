// The election of all stations over links: the types messages, links, system, and the answers, with the number of a refusal. specs/ has
// the definitions in the paper's order, proofs/ the theorems.
#![tactic(auto)]

ghost use Rattle.std.specs.Prelude.{◌≡◌};
ghost use Rattle.election.specs.Commands.{number_of};

use station::Station;

// A LEADER under way: the tick of its sending, the tick at which it is due, and the sender's counts, or its stamp if the heads have
// clocks; the other is zero.
#[derive(Clone, Copy, Debug, PartialEq, Eq)]
pub struct Message {
    pub sent: u32,
    pub due: u32,
    pub counts: [u16; 8],
    pub stamp: u32,
}

// How many messages a link has places for.
pub const PLACES: usize = 16;

// The messages under way from one station to another, oldest sending first: how many there are, and
// their places, the used ones first.
#[derive(Clone, Copy, Debug, PartialEq, Eq)]
pub struct Link {
    pub used: u8,
    pub messages: [Message; PLACES],
}

// All stations and links (document 01's table). Station p stands at p - 1, the link from p to q at
// 8 * (p - 1) + (q - 1).
#[derive(Clone, Copy, Debug, PartialEq, Eq)]
pub struct System {
    // whether it is set up
    pub ready: bool,
    // how many stations there are
    pub n: u8,
    pub period: u32,
    pub tick: u32,
    pub stations: [Station; 8],
    // how many messages each station has sent
    pub sent: [u32; 8],
    pub delays: [u8; 64],
    pub links: [Link; 64],
    // the rank of each station, which all stations know
    pub ranks: [u8; 8],
    // whether the heads have a running clock and no flash
    pub clock: bool,
}

// Why something is turned down.
#[derive(Clone, Copy, Debug, PartialEq, Eq)]
pub enum Refusal {
    UnknownCommand,
    MissingOperand,
    NotSetUp,
    SetUpTwice,
    StationsRange,
    PeriodRange,
    StationRange,
    StationUp,
    StationDown,
    WornOut,
    SameStation,
    NoTicks,
    PastLastTick,
    Unsound,
    BufferShort,
    ScheduleLong,
    RankRange,
    AlreadyStarted,
    ClockHeads,
}

impl Refusal {
    // The papers' number of a refusal.
    pub fn number(self) -> u8
        ensures { result ≡ number_of self }
    {
        match self {
            Refusal::UnknownCommand => 1,
            Refusal::MissingOperand => 2,
            Refusal::NotSetUp => 3,
            Refusal::SetUpTwice => 4,
            Refusal::StationsRange => 5,
            Refusal::PeriodRange => 6,
            Refusal::StationRange => 7,
            Refusal::StationUp => 8,
            Refusal::StationDown => 9,
            Refusal::WornOut => 10,
            Refusal::SameStation => 11,
            Refusal::NoTicks => 13,
            Refusal::PastLastTick => 14,
            Refusal::Unsound => 15,
            Refusal::BufferShort => 16,
            Refusal::ScheduleLong => 21,
            Refusal::RankRange => 22,
            Refusal::AlreadyStarted => 23,
            Refusal::ClockHeads => 25,
        }
    }
}

// The verdict: no station is up; all up stations trust L, and L is up; all trust L, and L is down; or they differ, or one trusts nobody.
#[derive(Clone, Copy, Debug, PartialEq, Eq)]
pub enum Verdict {
    Dark,
    Agreed(u8),
    AgreedDark(u8),
    Split,
}

// What the search for agreement answers: its finding, and the number of the station where the search ended.
#[derive(Clone, Copy, Debug, PartialEq, Eq)]
pub struct Searched {
    pub finding: Verdict,
    pub ended: u8,
}

// Where a schedule stopped, and why the command there was turned down.
#[derive(Clone, Copy, Debug, PartialEq, Eq)]
pub struct Stopped {
    pub at: usize,
    pub refusal: Refusal,
}

// What a schedule answers, its length or where it stopped, and always the system there.
#[derive(Clone, Copy, Debug, PartialEq, Eq)]
pub struct Scheduled {
    pub ended: Result<usize, Stopped>,
    pub system: System,
}
