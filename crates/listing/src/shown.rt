// What a listing shows of a system, and the listing as a text.
ghost use Rattle.std.specs.Prelude.{◌≡◌, ◌+◌, ◌≤◌};

use crate::parts::{Ending, Line, ending, line};
use crate::search::search;
use station::Station;
use text::rules::{Decimal, Joined, Pieces, Text};

// What a listing shows of a system, whose stations are at most eight.
#[derive(Clone, Copy)]
pub struct Shown<'a> {
    pub clock: bool,
    pub n: u8,
    pub tick: u32,
    pub stations: &'a [Station; 8],
    pub sent: &'a [u32; 8],
    ghost few: { n ≤ 8 },
}

// The lines of the stations.
impl<'a> Pieces for Shown<'a> {
    ghost use Rattle.std.specs.Prelude.{get_or};
    ghost use Rattle.election.specs.Listing.{station_line};
    ghost use Rattle.election.specs.System.{no_station};

    type Piece = Line<'a>;

    ghost count = { λ s. s.n };

    ghost piece = { λ s k. station_line s.clock s.n (k + 1) (get_or s.stations.now k no_station) (get_or s.sent.now k 0) };

    fn count(&self) -> usize {
        usize::from(self.n)
    }

    fn piece(&self, place: usize) -> Line<'a> {
        line(
            self.clock,
            usize::from(self.n),
            place as u8 + 1,
            &self.stations[place],
            self.sent[place],
        )
    }
}

pub type Listing<'a> = (
    (&'static str, Decimal, &'static str),
    Joined<Shown<'a>>,
    Ending,
);

impl<'a> Shown<'a> {
    ghost use Rattle.election.specs.Listing.{listing_of};

    // The listing: the tick, a line for each station, and the verdict.
    #[tactic(auto, unfolding(election::specs::Listing::listing_of, election::specs::Listing::station_lines))]
    pub fn text(&self) -> Listing<'a>
        ensures { ⟦<Listing<'a> as Text>⟧.bytes result ≡ listing_of self.now.clock self.now.n self.now.tick self.now.stations.now self.now.sent.now }
    {
        let tick = ("tick ", Decimal(u64::from(self.tick)), "\n");
        (
            tick,
            Joined(*self),
            ending(search(self.n, self.stations).finding),
        )
    }
}

#[cfg(test)]
mod tests {
    use super::*;
    use text::rules::{Counts, Either, OrDash};

    // What both kinds of heads show is in it; no head has all.
    const DOWN: Station = Station {
        incarnation: 3,
        stable: 1,
        up: false,
        leader: 1,
        timer: 0,
        slot: 20,
        recovering: false,
        recovered: [2, 3, 1, 1, 1, 1, 1, 1],
        timeouts: [64; 8],
        stamp: 40,
        lowest: 40,
        timeout: 64,
    };

    #[test]
    fn parts_of_lines(rt: HostRuntime) {
        let up = Station { up: true, ..DOWN };
        let stations = [DOWN, up, DOWN, up, DOWN, up, DOWN, up];
        let sent = [7; 8];
        let count = (" inc ", Decimal(3));
        let flash = Shown {
            clock: false,
            n: 2,
            tick: 20,
            stations: &stations,
            sent: &sent,
        };

        let (((status, _, known), _, _), _) = flash.piece(0);
        assert_eq!(rt; status.parts(), (Decimal(1), " down"));
        assert_eq!(rt;
            known.parts(),
            Either::Second((count, (" rec ", OrDash(None))))
        );

        let (((status, _, known), _, _), _) = flash.piece(1);
        let vector = OrDash(Some(Joined(Counts(&[2, 3]))));
        assert_eq!(rt; status.parts(), (Decimal(2), " up"));
        assert_eq!(rt; known.parts(), Either::Second((count, (" rec ", vector))));

        let clock = Shown {
            clock: true,
            n: 2,
            tick: 20,
            stations: &stations,
            sent: &sent,
        };
        let (((_, _, known), _, _), _) = clock.piece(1);
        let stamp = OrDash(Some(Decimal(40)));
        assert_eq!(rt;
            known.parts(),
            Either::First((" inc -", (" stamp ", stamp)))
        );
    }
}
