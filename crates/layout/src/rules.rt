// The fresh system and what set up leaves, laid out; and from a system to its layout and back.
ghost use Rattle.std.specs.Prelude.{◌≡◌, false, cond, ◌+◌, ◌*◌, ◌/◌, ◌%◌, ◌<◌, ◌≤◌, get_or, length, ltb};
ghost use Rattle.election.specs.System.{place, places, from, to, unused, no_link, is_link, unstarted, fresh, initial};
ghost use Rattle.election.specs.Sound.{message_at};
ghost use Rattle.layout.specs.Layout.{link_of, system_of};

use crate::Layout;
use election::{Link, Message, PLACES, System};
use station::Station;
use std::array;

// Where the link from p to q stands.
pub fn place_of(p: u8, q: u8) -> usize
    requires { (1 ≤ p) × (p ≤ 8) × (1 ≤ q) × (q ≤ 8) }
    ensures { (result ≡ place p q) × (result < 64) }
{
    8 * usize::from(p - 1) + usize::from(q - 1)
}

// An unused place of a link.
pub fn unused() -> Message
    ensures { result ≡ unused }
{
    Message {
        sent: 0,
        due: 0,
        counts: [0u16; 8],
        stamp: 0,
    }
}

// A station that was never started, and keeps a leader.
fn never_started(leader: u8) -> Station
    ensures { result ≡ unstarted leader }
{
    Station {
        incarnation: 0,
        stable: leader,
        up: false,
        leader: 0,
        timer: 0,
        slot: 0,
        recovering: false,
        recovered: [0; 8],
        timeouts: [0; 8],
        stamp: 0,
        lowest: 0,
        timeout: 0,
    }
}

// Whom the station at place k keeps before its first start: itself, if there is one.
fn own_number(n: u8, k: usize) -> u8
    requires { k < 8 }
    ensures { result ≡ cond (ltb k n) (k + 1) 0 }
{
    if k < usize::from(n) { k as u8 + 1 } else { 0 }
}

// The stations that set up leaves.
fn first_stations(n: u8) -> [Station; 8]
    ensures { result ≡ (initial false n 0).stations }
{
    array::from_fn(|k| never_started(own_number(n, k)))
}

// The delay that set up leaves at place k: 1 on each link, 0 where there is none.
fn first_delay(n: u8, k: usize) -> u8
    requires { k < 64 }
    ensures { result ≡ cond (is_link n (from k) (to k)) 1 0 }
{
    let (p, q) = (k / 8, k % 8);
    let n = usize::from(n);
    if p < n && q < n && p != q { 1 } else { 0 }
}

// The delays that set up leaves.
fn first_delays(n: u8) -> [u8; 64]
    ensures { result ≡ (initial false n 0).delays }
{
    array::from_fn(|k| first_delay(n, k))
}

// The system is set up, with clock heads or not.
pub fn set_up(clock: bool, n: u8, period: u32) -> Layout
    ensures { system_of result ≡ initial clock n period }
{
    Layout {
        ready: true,
        n,
        period,
        tick: 0,
        stations: first_stations(n),
        sent: [0; 8],
        delays: first_delays(n),
        used: [0; 64],
        messages: [unused(); 64 * PLACES],
        ranks: [0; 8],
        clock,
    }
}

// The fresh system: not set up, all its numbers zero.
pub fn fresh() -> Layout
    ensures { system_of result ≡ fresh }
{
    Layout {
        ready: false,
        n: 0,
        period: 0,
        tick: 0,
        stations: [never_started(0); 8],
        sent: [0; 8],
        delays: [0; 64],
        used: [0; 64],
        messages: [unused(); 64 * PLACES],
        ranks: [0; 8],
        clock: false,
    }
}

// The message at place i of a link, which has all its places.
fn message_of(l: &Link, i: usize) -> Message
    requires { i < places }
    ensures value { result ≡ message_at l.now i }
    ensures full { length l.now.messages ≡ places }
{
    l.messages[i]
}

// The layout of a system.
pub fn layout_of(s: &System) -> Layout
    ensures { system_of result ≡ s.now }
{
    Layout {
        ready: s.ready,
        n: s.n,
        period: s.period,
        tick: s.tick,
        stations: s.stations,
        sent: s.sent,
        delays: s.delays,
        used: array::from_fn(|k| s.links[k].used),
        messages: array::from_fn(|j| message_of(&s.links[j / PLACES], j % PLACES)),
        ranks: s.ranks,
        clock: s.clock,
    }
}

// The link at place k of a layout.
fn link_of(x: &Layout, k: usize) -> Link
    requires { k < 64 }
    ensures { result ≡ link_of x.now.used x.now.messages k }
{
    Link {
        used: x.used[k],
        messages: array::from_fn(|i| x.messages[PLACES * k + i]),
    }
}

// The system of a layout.
pub fn system_of(x: &Layout) -> System
    ensures { result ≡ system_of x.now }
{
    System {
        ready: x.ready,
        n: x.n,
        period: x.period,
        tick: x.tick,
        stations: x.stations,
        sent: x.sent,
        delays: x.delays,
        links: array::from_fn(|k| link_of(x, k)),
        ranks: x.ranks,
        clock: x.clock,
    }
}
