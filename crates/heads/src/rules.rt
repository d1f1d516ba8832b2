// What is asked of a head by its kind, a running clock or flash: whether it sends, how it starts, what fits it, what its messages carry. Hearing, the end of
// a timer and a send chance are chosen where a run stores the station. The simulator tests soundness and starts a station only where `decide` accepts the
// command, so what `start` requires is met there.
// (d) The table holds the kind as a bool, so each function asks it in one `if`; with a trait for the kinds that `if` would stand at each call.
ghost use Rattle.std.specs.Prelude.{◌≡◌, ◌≤◌, ◌<◌};
ghost use Rattle.station.specs.Limits.{last_tick, most_starts};
ghost use Rattle.election.specs.Heads.{announces_of, starting_of, fits, content_in};

use election::Message;
use fit::counts_in;
use station::{Seat, Station};

// Whether LEADER is sent at a send chance.
pub fn announces(clock: bool, me: u8, station: &Station) -> bool
    ensures { result ≡ announces_of clock me station.now }
{
    if clock {
        clock::rules::sends(me, station)
    } else {
        station.leader == me
    }
}

// Starts a station at a tick.
pub fn start(station: &mut Station, clock: bool, seat: Seat, tick: u32)
    requires me { (1 ≤ seat.me) × (seat.me ≤ 8) }
    requires sums { (seat.period ≤ 255) × (tick ≤ last_tick) × (station.old.incarnation < most_starts) }
    ensures { station.new ≡ starting_of clock seat.me seat.n seat.period tick station.old }
{
    if clock {
        clock::rules::start(station, seat.period, tick);
    } else {
        station.start(seat, tick);
    }
}

// Whether a station fits the end of a tick.
pub fn fits(clock: bool, seat: Seat, tick: u32, station: &Station) -> bool
    ensures { result ≡ fits clock seat.me seat.n seat.period tick station.now }
{
    if clock {
        clock::fits::fit(seat, tick, station)
    } else {
        fit::fit(seat, tick, station)
    }
}

// Whether what a message carries is in range: a stamp and no counts, or counts and no stamp.
pub fn content_in(clock: bool, n: u8, period: u32, tick: u32, message: &Message) -> bool
    ensures { result ≡ content_in clock n period tick message.now }
{
    if clock {
        let last = u64::from(period) + u64::from(tick);
        counts_in(0, &message.counts) && period <= message.stamp && u64::from(message.stamp) <= last
    } else {
        counts_in(n, &message.counts) && message.stamp == 0
    }
}
