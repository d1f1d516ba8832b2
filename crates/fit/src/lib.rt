// Whether a sound system could hand over a station, a head with flash: the tests behind refusal 15. No sum in them wraps.
#![tactic(auto)]

ghost use Rattle.std.specs.Prelude.{◌≡◌, cond, ◌-◌, get_or, ltb};
ghost use Rattle.std.specs.Ordering.{partial_le};
ghost use Rattle.lists.specs.Test.{all_to};
ghost use Rattle.fit.specs.Fit.{within, ranges, kept_in, vectorless, clockless, cleared, counts_in, ranks_in, timeout_in, timeouts_in, alive, slot_in, timer_in, standing, fit, just_set, timeouts_at, fit_start, fit_crash, fit_expire, in_tick, fit_message, heard_before, fit_hear, unended, ended, fit_slot};
ghost use Rattle.station.specs.Limits.{last_tick, longest};

use station::rules::{entry, other, precedes};
use station::{LAST_TICK, MOST_RANK, Seat, Station};

// The longest delay of a link.
pub const LONGEST_DELAY: u8 = 255;

// The longest that two messages of one sender can lie apart and be due in one tick.
const FLIGHT: u8 = LONGEST_DELAY - 1;

// The longest timeout that a station can hold at a tick.
fn longest(tick: u32) -> u64
    ensures { result ≡ longest tick }
{
    4350 + u64::from(tick)
}

// Whether a tick is one of a run.
pub fn in_run(tick: u32) -> bool
    ensures { result ≡ within 1 tick last_tick }
{
    (1..=LAST_TICK).contains(&tick)
}

// Whether the number of the station, the number of stations and the period are in range.
#[tactic(auto, unfolding(crate::specs::Fit::ranges))]
pub fn ranges(seat: Seat) -> bool
    ensures { result ≡ ranges seat.me seat.n seat.period }
{
    (2..=8).contains(&seat.n)
        && (16..=255).contains(&seat.period)
        && (1..=seat.n).contains(&seat.me)
}

// Whether what is kept is in range.
#[tactic(auto, unfolding(crate::specs::Fit::kept_in))]
fn kept_in(n: u8, s: &Station) -> bool
    ensures { result ≡ kept_in n s.now }
{
    s.incarnation <= 4095 && (1..=n).contains(&s.stable)
}

// Whether every entry is in range: at most the most for stations 1 to n, and none beyond.
fn entries_in<T: Copy + PartialOrd>(n: u8, most: T, none: T, entries: &[T; 8]) -> bool
    ensures { result ≡ all_to 8 (λ k. partial_le T.partial_cmp (get_or entries.now k none) (cond (ltb k n) most none)) }
{
    entries.iter().enumerate().all(|(k, &x)| x <= if k < usize::from(n) { most } else { none })
}

// Whether every count is in range.
#[tactic(auto, unfolding(crate::specs::Fit::counts_in))]
pub fn counts_in(n: u8, counts: &[u16; 8]) -> bool
    ensures { result ≡ counts_in n counts.now }
{
    entries_in(n, 4095, 0, counts)
}

// Whether every rank is in range.
#[tactic(auto, unfolding(crate::specs::Fit::ranks_in))]
pub fn ranks_in(n: u8, ranks: &[u8; 8]) -> bool
    ensures { result ≡ ranks_in n ranks.now }
{
    entries_in(n, MOST_RANK, 0, ranks)
}

// Whether a timeout is in range at place k.
fn timeout_in(seat: Seat, high: u64, k: usize, x: u32) -> bool
    ensures { result ≡ timeout_in seat.me seat.n seat.period high k x }
{
    if other(seat.me, seat.n, k) {
        seat.period <= x && u64::from(x) <= high
    } else {
        x == 0
    }
}

// Whether every timeout is in range.
fn timeouts_in(seat: Seat, high: u64, timeouts: &[u32; 8]) -> bool
    ensures { result ≡ timeouts_in seat.me seat.n seat.period high timeouts.now }
{
    timeouts
        .iter()
        .enumerate()
        .all(|(k, &x)| timeout_in(seat, high, k, x))
}

// Whether a station has no counts and no timeouts.
#[tactic(auto, unfolding(crate::specs::Fit::vectorless))]
pub fn vectorless(s: &Station) -> bool
    ensures { result ≡ vectorless s.now }
{
    let nowhere = Seat {
        me: 0,
        n: 0,
        period: 0,
    };
    counts_in(0, &s.recovered) && timeouts_in(nowhere, 0, &s.timeouts)
}

// Whether the fields of a head with a running clock are zero.
fn clockless(s: &Station) -> bool
    ensures { result ≡ clockless s.now }
{
    s.stamp == 0 && s.lowest == 0 && s.timeout == 0
}

// Whether all that a crash loses is zero.
#[tactic(auto, unfolding(crate::specs::Fit::cleared))]
pub fn cleared(s: &Station) -> bool
    ensures { result ≡ cleared s.now }
{
    s.leader == 0 && s.timer == 0 && s.slot == 0 && !s.recovering && vectorless(s) && clockless(s)
}

// Whether the station is up with its count, own entry, leader and counts in range.
#[tactic(auto, unfolding(crate::specs::Fit::alive))]
fn alive(seat: Seat, s: &Station) -> bool
    ensures { result ≡ alive seat.me seat.n s.now }
{
    s.up && s.incarnation >= 1
        && (1..=seat.n).contains(&s.leader)
        && counts_in(seat.n, &s.recovered)
        && entry(&s.recovered, seat.me, 0) >= 1
        && clockless(s)
}

// Whether the next send chance is in range.
#[tactic(auto, unfolding(crate::specs::Fit::slot_in))]
fn slot_in(period: u32, tick: u32, s: &Station) -> bool
    ensures { result ≡ slot_in period tick s.now }
{
    let last = u64::from(tick) + (u64::from(period) + 4095);
    tick < s.slot && u64::from(s.slot) <= last
}

// Whether the timer is in range.
#[tactic(auto, unfolding(crate::specs::Fit::timer_in))]
fn timer_in(me: u8, tick: u32, s: &Station) -> bool
    ensures { result ≡ timer_in me tick s.now }
{
    if s.leader == me {
        return s.timer == 0;
    }
    let last = u64::from(tick) + u64::from(entry(&s.timeouts, s.leader, 0));
    tick < s.timer && u64::from(s.timer) <= last
}

// Whether an up station fits the end of a tick, but for its timer.
#[tactic(auto, unfolding(crate::specs::Fit::standing))]
fn standing(seat: Seat, tick: u32, s: &Station) -> bool
    ensures { result ≡ standing seat.me seat.n seat.period tick s.now }
{
    alive(seat, s) && timeouts_in(seat, longest(tick), &s.timeouts) && slot_in(seat.period, tick, s)
}

// Whether a station fits the end of a tick.
#[tactic(auto, unfolding(crate::specs::Fit::fit))]
pub fn fit(seat: Seat, tick: u32, s: &Station) -> bool
    ensures { result ≡ fit seat.me seat.n seat.period tick s.now }
{
    ranges(seat)
        && kept_in(seat.n, s)
        && if s.up {
            standing(seat, tick, s) && timer_in(seat.me, tick, s)
        } else {
            cleared(s)
        }
}

// Whether the timer was set in this very tick.
#[tactic(auto, unfolding(crate::specs::Fit::just_set))]
fn just_set(ranks: &[u8; 8], me: u8, tick: u32, s: &Station) -> bool
    ensures { result ≡ just_set ranks.now me tick s.now }
{
    let end = u64::from(tick) + u64::from(entry(&s.timeouts, s.leader, 0));
    u64::from(s.timer) == end && precedes(ranks, &s.recovered, s.leader, me)
}

// How many timeouts are at a value.
fn timeouts_at(high: u64, timeouts: &[u32; 8]) -> usize
    ensures { result ≡ timeouts_at high timeouts.now }
{
    timeouts.iter().filter(|&&x| u64::from(x) == high).count()
}

// Whether a start can be handed these values.
#[tactic(auto, unfolding(crate::specs::Fit::fit_start))]
pub fn fit_start(seat: Seat, tick: u32, s: &Station) -> bool
    ensures { result ≡ fit_start seat.me seat.n seat.period tick s.now }
{
    tick <= LAST_TICK && fit(seat, tick, s)
}

// Whether a crash can be handed these values.
#[tactic(auto, unfolding(crate::specs::Fit::fit_crash))]
pub fn fit_crash(seat: Seat, tick: u32, s: &Station) -> bool
    ensures { result ≡ fit_crash seat.me seat.n seat.period tick s.now }
{
    fit_start(seat, tick, s) && s.up
}

// Whether the end of a timer can be handed these values.
#[tactic(auto, unfolding(crate::specs::Fit::fit_expire))]
pub fn fit_expire(seat: Seat, tick: u32, s: &Station) -> bool
    ensures { result ≡ fit_expire seat.me seat.n seat.period tick s.now }
{
    in_run(tick) && fit(seat, tick.saturating_sub(1), s) && s.up && s.timer == tick
}

// Whether a tick in which candidates are compared can be given these values.
#[tactic(auto, unfolding(crate::specs::Fit::in_tick))]
fn in_tick(ranks: &[u8; 8], seat: Seat, tick: u32) -> bool
    ensures { result ≡ in_tick ranks.now seat.me seat.n seat.period tick }
{
    in_run(tick) && ranges(seat) && ranks_in(seat.n, ranks)
}

// Whether a message can be another station's.
#[tactic(auto, unfolding(crate::specs::Fit::fit_message))]
fn fit_message(seat: Seat, from: u8, counts: &[u16; 8]) -> bool
    ensures { result ≡ fit_message seat.me seat.n from counts.now }
{
    (1..=seat.n).contains(&from) && from != seat.me && counts_in(seat.n, counts)
}

// Whether the leader can have been heard in this tick before a message from a station.
#[tactic(auto, unfolding(crate::specs::Fit::heard_before))]
pub fn heard_before(period: u32, tick: u32, from: u8, s: &Station) -> bool
    ensures { result ≡ heard_before period tick from s.now }
{
    let apart = tick.saturating_sub(1).min(u32::from(FLIGHT));
    s.leader < from || (s.leader == from && period <= apart)
}

// Whether hearing LEADER can be handed these values.
#[tactic(auto, unfolding(crate::specs::Fit::fit_hear))]
pub fn fit_hear(
    ranks: &[u8; 8],
    seat: Seat,
    tick: u32,
    from: u8,
    counts: &[u16; 8],
    s: &Station,
) -> bool
    ensures { result ≡ fit_hear ranks.now seat.me seat.n seat.period tick from counts.now s.now }
{
    let before = tick.saturating_sub(1);
    in_tick(ranks, seat, tick)
        && kept_in(seat.n, s)
        && fit_message(seat, from, counts)
        && standing(seat, before, s)
        && (timer_in(seat.me, before, s)
            || (just_set(ranks, seat.me, tick, s) && heard_before(seat.period, tick, from, s)))
}

// Whether the timer did not end in this tick.
#[tactic(auto, unfolding(crate::specs::Fit::unended))]
fn unended(ranks: &[u8; 8], seat: Seat, tick: u32, s: &Station) -> bool
    ensures { result ≡ unended ranks.now seat.me seat.n seat.period tick s.now }
{
    let before = tick.saturating_sub(1);
    timeouts_in(seat, longest(before), &s.timeouts)
        && ((timer_in(seat.me, before, s) && s.timer != tick) || just_set(ranks, seat.me, tick, s))
}

// Whether the timer ended in this tick, and raised the timeout to the highest.
#[tactic(auto, unfolding(crate::specs::Fit::ended))]
fn ended(seat: Seat, tick: u32, s: &Station) -> bool
    ensures { result ≡ ended seat.me seat.n seat.period tick s.now }
{
    let high = longest(tick);
    s.leader == seat.me
        && s.timer == 0
        && timeouts_in(seat, high, &s.timeouts)
        && timeouts_at(high, &s.timeouts) == 1
}

// Whether a send chance can be handed these values.
#[tactic(auto, unfolding(crate::specs::Fit::fit_slot))]
pub fn fit_slot(ranks: &[u8; 8], seat: Seat, tick: u32, s: &Station) -> bool
    ensures { result ≡ fit_slot ranks.now seat.me seat.n seat.period tick s.now }
{
    in_tick(ranks, seat, tick)
        && kept_in(seat.n, s)
        && alive(seat, s)
        && s.slot == tick
        && (unended(ranks, seat, tick, s) || ended(seat, tick, s))
}
