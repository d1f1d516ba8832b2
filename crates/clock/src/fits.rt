// Whether a sound system could hand over a head with a running clock: the tests behind refusal 15. No sum in them wraps.
ghost use Rattle.std.specs.Prelude.{◌≡◌, ◌+◌};
ghost use Rattle.clock.specs.Fit.{kept_in, alive, timeout_in, slot_in, follows, timer_in, standing, fit, just_set, fit_start, fit_crash, fit_expire, fit_message, fit_hear, unended, ended, fit_slot};

use fit::{cleared, heard_before, in_run, ranges, vectorless};
use station::{LAST_TICK, Seat, Station};

// What a clock reads at a tick.
fn reading(period: u32, tick: u32) -> u64
    ensures { result ≡ period + tick }
{
    u64::from(period) + u64::from(tick)
}

// Whether counts and vectors are zero, and the station itself is the leader that it keeps.
#[tactic(auto, unfolding(crate::specs::Fit::kept_in))]
fn kept_in(me: u8, station: &Station) -> bool
    ensures { result ≡ kept_in me station.now }
{
    station.incarnation == 0 && station.stable == me && vectorless(station)
}

// Whether the station is up with its leader and its stamps in range.
#[tactic(auto, unfolding(crate::specs::Fit::alive))]
fn alive(n: u8, period: u32, tick: u32, station: &Station) -> bool
    ensures { result ≡ alive n period tick station.now }
{
    let leader = (1..=n).contains(&station.leader) || station.leader == 0 && station.recovering;
    let stamp = period <= station.stamp && u64::from(station.stamp) <= reading(period, tick);
    let lowest = period <= station.lowest && station.lowest <= station.stamp;
    station.up && leader && stamp && lowest
}

// Whether the timeout is in range.
fn timeout_in(period: u32, tick: u32, station: &Station) -> bool
    ensures { result ≡ timeout_in period tick station.now }
{
    period <= station.timeout && u64::from(station.timeout) <= reading(period, tick)
}

// Whether the next send chance is in range.
fn slot_in(period: u32, tick: u32, station: &Station) -> bool
    ensures { result ≡ slot_in period tick station.now }
{
    tick < station.slot && u64::from(station.slot) <= u64::from(tick) + reading(period, tick)
}

// Whether the leader is another station.
fn follows(me: u8, station: &Station) -> bool
    ensures { result ≡ follows me station.now }
{
    station.leader != 0 && station.leader != me
}

// When a timer set in a tick ends.
fn end(tick: u32, station: &Station) -> u64
    ensures { result ≡ tick + station.now.timeout }
{
    u64::from(tick) + u64::from(station.timeout)
}

// Whether the timer is in range.
#[tactic(auto, unfolding(crate::specs::Fit::timer_in))]
fn timer_in(me: u8, tick: u32, station: &Station) -> bool
    ensures { result ≡ timer_in me tick station.now }
{
    if follows(me, station) {
        tick < station.timer && u64::from(station.timer) <= end(tick, station)
    } else {
        station.timer == 0
    }
}

// Whether an up station fits the end of a tick, but for its timer.
#[tactic(auto, unfolding(crate::specs::Fit::standing))]
fn standing(n: u8, period: u32, tick: u32, station: &Station) -> bool
    ensures { result ≡ standing n period tick station.now }
{
    alive(n, period, tick, station)
        && timeout_in(period, tick, station)
        && slot_in(period, tick, station)
}

// Whether a station fits the end of a tick.
#[tactic(auto, unfolding(crate::specs::Fit::fit))]
pub fn fit(seat: Seat, tick: u32, station: &Station) -> bool
    ensures { result ≡ fit seat.me seat.n seat.period tick station.now }
{
    let kept = ranges(seat) && kept_in(seat.me, station);
    if station.up {
        kept && standing(seat.n, seat.period, tick, station) && timer_in(seat.me, tick, station)
    } else {
        kept && cleared(station)
    }
}

// Whether the timer was set in this very tick.
#[tactic(auto, unfolding(crate::specs::Fit::just_set))]
fn just_set(me: u8, tick: u32, station: &Station) -> bool
    ensures { result ≡ just_set me tick station.now }
{
    follows(me, station) && u64::from(station.timer) == end(tick, station)
}

// (d) fit has these three tests over its own `fit`; a trait for the two, with two impls and six callers, is longer than the six lines.
// Whether a start can be handed these values.
#[tactic(auto, unfolding(crate::specs::Fit::fit_start))]
pub fn fit_start(seat: Seat, tick: u32, station: &Station) -> bool
    ensures { result ≡ fit_start seat.me seat.n seat.period tick station.now }
{
    tick <= LAST_TICK && fit(seat, tick, station)
}

// Whether a crash can be handed these values.
#[tactic(auto, unfolding(crate::specs::Fit::fit_crash))]
pub fn fit_crash(seat: Seat, tick: u32, station: &Station) -> bool
    ensures { result ≡ fit_crash seat.me seat.n seat.period tick station.now }
{
    fit_start(seat, tick, station) && station.up
}

// Whether the end of a timer can be handed these values.
#[tactic(auto, unfolding(crate::specs::Fit::fit_expire))]
pub fn fit_expire(seat: Seat, tick: u32, station: &Station) -> bool
    ensures { result ≡ fit_expire seat.me seat.n seat.period tick station.now }
{
    in_run(tick)
        && fit(seat, tick.saturating_sub(1), station)
        && station.up
        && station.timer == tick
}

// Whether a message can be another station's, with a stamp of a tick before.
#[tactic(auto, unfolding(crate::specs::Fit::fit_message))]
fn fit_message(seat: Seat, tick: u32, from: u8, stamp: u32) -> bool
    ensures { result ≡ fit_message seat.me seat.n seat.period tick from stamp }
{
    let last = reading(seat.period, tick.saturating_sub(1));
    (1..=seat.n).contains(&from)
        && from != seat.me
        && seat.period <= stamp
        && u64::from(stamp) <= last
}

// Whether hearing LEADER can be handed these values.
#[tactic(auto, unfolding(crate::specs::Fit::fit_hear))]
pub fn fit_hear(seat: Seat, tick: u32, from: u8, stamp: u32, station: &Station) -> bool
    ensures { result ≡ fit_hear seat.me seat.n seat.period tick from stamp station.now }
{
    let Seat { me, n, period } = seat;
    let before = tick.saturating_sub(1);
    in_run(tick)
        && ranges(seat)
        && kept_in(me, station)
        && fit_message(seat, tick, from, stamp)
        && standing(n, period, before, station)
        && (timer_in(me, before, station)
            || just_set(me, tick, station) && heard_before(period, tick, from, station))
}

// Whether the timer did not end in this tick.
#[tactic(auto, unfolding(crate::specs::Fit::unended))]
fn unended(me: u8, period: u32, tick: u32, station: &Station) -> bool
    ensures { result ≡ unended me period tick station.now }
{
    let before = tick.saturating_sub(1);
    let later = timer_in(me, before, station) && station.timer != tick;
    timeout_in(period, before, station) && (later || just_set(me, tick, station))
}

// Whether the timer ended in this tick, and raised the timeout to the highest.
#[tactic(auto, unfolding(crate::specs::Fit::ended))]
fn ended(me: u8, period: u32, tick: u32, station: &Station) -> bool
    ensures { result ≡ ended me period tick station.now }
{
    station.leader == me
        && station.timer == 0
        && station.lowest == station.stamp
        && u64::from(station.timeout) == reading(period, tick)
}

// Whether a send chance can be handed these values.
#[tactic(auto, unfolding(crate::specs::Fit::fit_slot))]
pub fn fit_slot(seat: Seat, tick: u32, station: &Station) -> bool
    ensures { result ≡ fit_slot seat.me seat.n seat.period tick station.now }
{
    let Seat { me, n, period } = seat;
    in_run(tick)
        && ranges(seat)
        && kept_in(me, station)
        && alive(n, period, tick.saturating_sub(1), station)
        && station.slot == tick
        && (unended(me, period, tick, station) || ended(me, period, tick, station))
}
