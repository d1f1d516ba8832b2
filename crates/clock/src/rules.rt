// The rules of a head with a running clock, for stations that fit. Each operation of the crate's root tests that its station fits and then
// applies the rule of the same name, so what a rule requires can be met. A crash is that of station::Station.
ghost use Rattle.std.specs.Prelude.{◌≡◌, cond, ◌≤◌, leb, ltb, eqb};
ghost use Rattle.station.specs.Limits.{last_tick, longest};
ghost use Rattle.clock.specs.Rules.{started, adopts, heard, expired, waited, slotted, sends, carried};

use station::Station;

// Starts a station.
#[tactic(auto, unfolding(crate::specs::Rules::started))]
pub fn start(station: &mut Station, period: u32, tick: u32)
    requires { (period ≤ 255) × (tick ≤ last_tick) }
    ensures { station.new ≡ started period tick station.old }
{
    let now = period + tick;
    *station = Station {
        up: true,
        leader: 0,
        timer: 0,
        slot: tick + now,
        recovering: true,
        recovered: [0; 8],
        timeouts: [0; 8],
        stamp: now,
        lowest: now,
        timeout: now,
        ..*station
    };
}

// Whether a sender is not after the leader, or, where there is none, before the station itself.
fn not_after(me: u8, from: u8, leader: u8) -> bool
    ensures { result ≡ cond (eqb leader 0) (ltb from me) (leb from leader) }
{
    match leader {
        0 => from < me,
        _ => from <= leader,
    }
}

// Whether a stamp is adopted.
#[tactic(auto, unfolding(crate::specs::Rules::adopts))]
fn adopts(me: u8, from: u8, stamp: u32, station: &Station) -> bool
    ensures { result ≡ adopts me from stamp station.now }
{
    stamp < station.lowest || stamp == station.lowest && not_after(me, from, station.leader)
}

// Hears LEADER from a station, with its stamp.
#[tactic(auto, unfolding(crate::specs::Rules::heard))]
pub fn hear(station: &mut Station, me: u8, from: u8, stamp: u32, tick: u32)
    requires { (tick ≤ last_tick) × (station.old.timeout ≤ longest last_tick) }
    ensures { station.new ≡ heard me from stamp tick station.old }
{
    if adopts(me, from, stamp, station) {
        station.leader = from;
        station.timer = tick + station.timeout;
        station.lowest = stamp;
    }
}

// Ends its timer.
#[tactic(auto, unfolding(crate::specs::Rules::expired))]
pub fn expire(station: &mut Station, me: u8)
    requires { station.old.timeout ≤ longest last_tick }
    ensures { station.new ≡ expired me station.old }
{
    station.leader = me;
    station.timer = 0;
    station.lowest = station.stamp;
    station.timeout += 1;
}

// Has it trust itself or reset its timer, at the end of its wait.
#[tactic(auto, unfolding(crate::specs::Rules::waited))]
fn wait(station: &mut Station, me: u8, tick: u32)
    requires { (tick ≤ last_tick) × (station.old.timeout ≤ longest last_tick) }
    ensures { station.new ≡ waited me tick station.old }
{
    match station.leader {
        0 => {
            station.leader = me;
            station.timer = 0;
        }
        leader if leader == me => {}
        _ => station.timer = tick + station.timeout,
    }
}

// Ends its wait, where it is still on.
fn past_wait(station: &mut Station, me: u8, tick: u32)
    requires { (tick ≤ last_tick) × (station.old.timeout ≤ longest last_tick) }
    ensures { station.new ≡ cond station.old.recovering (waited me tick station.old) station.old }
{
    if station.recovering {
        wait(station, me, tick);
    }
}

// Gives it a send chance.
pub fn slot(station: &mut Station, me: u8, period: u32, tick: u32)
    requires { (period ≤ 255) × (tick ≤ last_tick) × (station.old.timeout ≤ longest last_tick) }
    ensures { station.new ≡ slotted me period tick station.old }
{
    past_wait(station, me, tick);
    station.slot = tick + period;
    station.recovering = false;
}

// Whether it sends LEADER at a send chance.
#[tactic(auto, unfolding(crate::specs::Rules::sends))]
pub fn sends(me: u8, station: &Station) -> bool
    ensures { result ≡ sends me station.now }
{
    station.leader == me || station.recovering && station.leader == 0
}

// The stamp that LEADER carries.
pub fn carried(station: &Station) -> u32
    ensures { result ≡ carried station.now }
{
    station.stamp
}
