// The other parts of a tick: station by station, its timer ends if it is due, and it has its send chance if that is due.
// (d) The loops count places: the whole layout is lent on within them, or stored into, so nothing of it can be gone through meanwhile.
ghost use Rattle.std.specs.Prelude.{◌≡◌, true, ℕ, ◌+◌, ◌*◌, ◌<◌, ◌≤◌, get_or, length};
ghost use Rattle.station.specs.Limits.{last_tick, longest};
ghost use Rattle.station.specs.Order.{entry};
ghost use Rattle.election.specs.System.{no_station};
ghost use Rattle.election.specs.declared.System.{System};
ghost use Rattle.ticks.specs.Chances.{CanEnd, Turn, ended_in, sends_at, ended_to};
ghost use Rattle.ticks.specs.Sending.{timer_ends};

use crate::due::{quiet_station, short_of};
use crate::steps::{goes, sends_now, sent_more, timer_ends};
use clock::rules::carried;
use election::{Message, PLACES};
use layout::Layout;

// Each station in turn: its timer, then its send chance. Up to when nothing is due.
pub(crate) fn chances(s: &mut Layout, busy: &mut [bool; 8], now: u32, until: u32) -> u32
    ghost heard: { System }
    requires ends { (p : ℕ) → p < heard.n → CanEnd now (get_or heard.stations p no_station) }
    requires bound { now ≤ until }
    requires turn { Turn heard.n now heard last_tick until s.old busy.old 0 0 0 0 }
    ensures bound { now ≤ result }
    ensures turn { Turn heard.n now heard last_tick result s.new busy.new heard.n heard.n heard.n (8 * heard.n) }
{
    let n = s.n as usize;
    let mut until = until;
    for p in 0..n {
        expire(s, p, now);
        until = chance(s, busy, p, now, until);
    }
    until
}

// The timer of the station at place p ends, if it is due.
// (c) A station is copied out and stored: lent where it stands, it is in the goals the list set at p to what p holds, and the proof did not close.
fn expire(s: &mut Layout, p: usize, now: u32)
    requires place { (p < 8) × (p < length s.old.stations) }
    requires ends { CanEnd now (get_or s.old.stations p no_station) }
    ensures { s.new ≡ ended_in now p s.old }
{
    if timer_ends(now, &s.stations[p]) {
        let mut x = s.stations[p];
        let me = p as u8 + 1;
        if s.clock {
            clock::rules::expire(&mut x, me);
            s.stations[p] = x;
        } else {
            x.expire(me);
            s.stations[p] = x;
        }
    }
}

// The station at place p has its send chance, if it is due: it sends, or not, and sets the next. Up to when nothing is due.
// (c) A station is copied out and stored: lent where it stands, it is in the goals the list set at p to what p holds, and the proof did not close.
fn chance(s: &mut Layout, busy: &mut [bool; 8], p: usize, now: u32, until: u32) -> u32
    ghost heard: { System }
    requires place { p < heard.n }
    requires bound { now ≤ until }
    requires turn { Turn heard.n now heard last_tick until s.old busy.old (p + 1) p p (8 * p) }
    ensures bound { now ≤ result }
    ensures turn { Turn heard.n now heard last_tick result s.new busy.new (p + 1) (p + 1) (p + 1) (8 * (p + 1)) }
{
    let mut until = until;
    if s.stations[p].slot == now {
        if sends_now(s.clock, p as u8 + 1, now, &s.stations[p]) {
            until = send(s, busy, p, now, until);
        }
        let mut x = s.stations[p];
        if s.clock {
            clock::rules::slot(&mut x, p as u8 + 1, s.period, now);
            s.stations[p] = x;
        } else {
            x.slot(s.period, now);
            s.stations[p] = x;
        }
    }
    quiet_station(now, &s.stations[p], until)
}

// The station at place p sends LEADER to all others, and is marked. Up to when nothing is due.
fn send(s: &mut Layout, busy: &mut [bool; 8], p: usize, now: u32, until: u32) -> u32
    ghost heard: { System }
    requires place { p < heard.n }
    requires bound { now ≤ until }
    requires sends { sends_at now (ended_to heard.n now heard) p ≡ true }
    requires turn { Turn heard.n now heard last_tick until s.old busy.old (p + 1) p p (8 * p) }
    ensures bound { now ≤ result }
    ensures turn { Turn heard.n now heard last_tick result s.new busy.new (p + 1) p (p + 1) (8 * (p + 1)) }
{
    busy[p] = true;
    let n = s.n as usize;
    let x = s.stations[p];
    let counts = x.recovered;
    let stamp = carried(&x);
    let mut until = until;
    for q in 0..n {
        let k = 8 * p + q;
        let d = u32::from(s.delays[k]);
        if goes(p, q, d) {
            let u = usize::from(s.used[k]);
            let due = now + d;
            s.messages[PLACES * k + u] = Message {
                sent: now,
                due,
                counts,
                stamp,
            };
            s.used[k] += 1;
            until = short_of(now, due, until);
        }
    }
    s.sent[p] = sent_more(s.n, s.sent[p]);
    until
}
