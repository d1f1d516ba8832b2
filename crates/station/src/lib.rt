// One station, of either kind of head; the rules of one with flash, by the stable-storage leader election, and the order of candidates.
#![tactic(auto)]

ghost use Rattle.std.specs.Prelude.{◌≡◌};
ghost use Rattle.station.specs.Order.{entry, before};
ghost use Rattle.station.specs.Claims.{Lexicographic, RanksEqual, Strict, Irreflexive, Total, Transitive, Monotone};

pub mod rules;

use crate::rules::entry;

// The last tick.
pub const LAST_TICK: u32 = 1000000;

// The largest rank.
pub const MOST_RANK: u8 = 7;

// One station. A crash keeps the incarnation (the start count) and the stable leader (the kept
// leader); the rest is lost, and zero while the station is down. Stations are 1 to n; 0 is none.
// Numbers, with 0 for none, and a vector for each kind of entry stay: an operation takes any such station, a broken one too, and answers 15.
#[derive(Clone, Copy, Debug, PartialEq, Eq)]
pub struct Station {
    pub incarnation: u16,
    pub stable: u8,
    pub up: bool,
    // the trusted leader
    pub leader: u8,
    // the tick at which the timer ends, 0 where it is stopped
    pub timer: u32,
    // the tick of the next send chance
    pub slot: u32,
    // whether the start-up wait is still on
    pub recovering: bool,
    // of a head with flash, zero in one with a running clock: the known start counts, station 1 first
    pub recovered: [u16; 8],
    // and the timeouts for the other stations
    pub timeouts: [u32; 8],
    // of a head with a running clock, zero in one with flash: its stamp, the lowest stamp that it knows, and its one timeout
    pub stamp: u32,
    pub lowest: u32,
    pub timeout: u32,
}

// Where a station sits: its number, how many stations there are, and the period in ticks; any values.
#[derive(Clone, Copy, Debug, PartialEq, Eq)]
pub struct Seat {
    pub me: u8,
    pub n: u8,
    pub period: u32,
}

// A station that stands for election. Fewer known starts come first, then a lower rank, then a lower number: the derived order, field by field.
#[derive(Clone, Copy, Debug, PartialEq, Eq, PartialOrd, Ord)]
pub struct Candidate {
    pub starts: u16,
    pub rank: u8,
    pub number: u8,
}

impl Candidate {
    // Station q, by the ranks and by the known counts.
    pub fn new(ranks: &[u8; 8], counts: &[u16; 8], q: u8) -> Candidate
        ensures starts { result.starts ≡ entry counts.now q }
        ensures rank { result.rank ≡ entry ranks.now q }
        ensures number { result.number ≡ q }
    {
        Candidate {
            starts: entry(counts, q, 0),
            rank: entry(ranks, q, 0),
            number: q,
        }
    }

    // Whether it is strictly before another.
    #[tactic(auto, unfolding(crate::specs::Order::before))]
    pub fn is_before(self, other: Candidate) -> bool
        ensures { result ≡ before self.starts self.rank self.number other.starts other.rank other.number }
    {
        self < other
    }
}

// The claims of the candidate order: for all counts, ranks and numbers.
#[tactic(auto, using(crate::proofs::Ordered::lexicographic_holds, crate::proofs::Ordered::strict_holds, crate::proofs::Ordered::irreflexive_holds, crate::proofs::Ordered::total_holds, crate::proofs::Ordered::transitive_holds, crate::proofs::Ordered::monotone_holds))]
pub fn candidates_are_ordered()
    ensures lexicographic { Lexicographic }
    ensures ranks_equal { RanksEqual }
    ensures strict { Strict }
    ensures irreflexive { Irreflexive }
    ensures total { Total }
    ensures transitive { Transitive }
    ensures monotone { Monotone }
{}
