// The first part of a tick: what is due is heard, sender by sender and link by link, and the rest is kept in place.
// (d) The loops count places: the whole layout is lent on within them, so nothing of it can be gone through meanwhile, and `hear_due` packs a link in
// place. `hear` goes over the marks and `clear` over a stretch as they do, by place; no other form of these two was tried.
ghost use Rattle.std.specs.Prelude.{◌≡◌, List, Bool, false, true, ℕ, ◌+◌, ◌*◌, ◌<◌, ◌≤◌, get_or, set, length};
ghost use Rattle.station.specs.Limits.{last_tick, longest};
ghost use Rattle.station.specs.Order.{entry};
ghost use Rattle.election.specs.System.{no_station, places};
ghost use Rattle.election.specs.declared.System.{System};
ghost use Rattle.layout.proofs.Stores.{Clearing, Wide};
ghost use Rattle.ticks.specs.Delivering.{Delivered, Reading, Silent};

use crate::due::short_of;
use election::PLACES;
use layout::Layout;
use layout::rules::unused;
use station::LAST_TICK;

// Hears all that is due now, past the senders that are not marked, and marks those that have messages left: up to when none of these is due.
pub(crate) fn hear(s: &mut Layout, busy: &mut [bool; 8], now: u32) -> u32
    ghost r: { System }
    requires delivered { Delivered r now last_tick s.old 0 0 }
    requires silent { Silent r.n s.old.used busy.old (8 * r.n) }
    ensures delivered { Delivered r now result s.new r.n 0 }
    ensures silent { Silent r.n s.new.used busy.new (8 * r.n) }
{
    let n = s.n as usize;
    let mut until = LAST_TICK;
    for q in 0..n {
        if busy[q] {
            let (more, short) = deliver(s, q, now, until);
            busy[q] = more;
            until = short;
        }
    }
    until
}

// Hears what is due of the sender at place q: whether more of it is under way, and up to when nothing is due.
fn deliver(s: &mut Layout, q: usize, now: u32, until: u32) -> (bool, u32)
    ghost r: { System }
    requires delivered { Delivered r now until s.old q 0 }
    requires sender { q < r.n }
    ensures delivered { Delivered r now result.1 s.new (q + 1) 0 }
    ensures silent { (busy : List Bool) → get_or busy q false ≡ true → Silent r.n s.old.used busy (8 * r.n) → Silent r.n s.new.used (set busy q result.0) (8 * r.n) }
{
    let n = s.n as usize;
    let mut more = false;
    let mut until = until;
    for p in 0..n {
        let k = 8 * q + p;
        if s.used[k] != 0 {
            until = deliver_link(s, q, p, now, until);
            if s.used[k] != 0 {
                more = true;
            }
        }
    }
    (more, until)
}

// Hears what is due on the link from place q to place p, takes it off, and answers up to when nothing is due.
fn deliver_link(s: &mut Layout, q: usize, p: usize, now: u32, until: u32) -> u32
    ghost r: { System }
    requires delivered { Delivered r now until s.old q p }
    requires sender { q < r.n }
    requires receiver { p < r.n }
    requires some { get_or s.old.used (8 * q + p) 0 ≡ 0 → ⊥ }
    ensures delivered { Delivered r now result s.new q (p + 1) }
    ensures used { s.new.used ≡ set s.old.used (8 * q + p) (get_or s.new.used (8 * q + p) 0) }
{
    let k = 8 * q + p;
    let u = usize::from(s.used[k]);
    let (to, until) = hear_due(s, q, p, now, until);
    clear(s, k, to, u);
    s.used[k] = to as u8;
    until
}

// Hears the messages of the link from place q to place p that are due, and packs the others to its front: how many these are, and up to when none of them is due.
// The kind of head is asked where a station is stored: one that a function chose would be copied first.
// (c) A station is copied out and stored: lent where it stands (`s.stations[p].hear(..)`), it is in the goals the list set at p to what p holds, and the proof did not close.
fn hear_due(s: &mut Layout, q: usize, p: usize, now: u32, until: u32) -> (usize, u32)
    requires ends { (q < 8) × (p < 8) × (p < length s.old.stations) }
    requires room { Wide s.old × (get_or s.old.used (8 * q + p) 0 ≤ places) }
    requires ticks { (now ≤ until) × (now ≤ last_tick) }
    requires timeouts { (entry (get_or s.old.stations p no_station).timeouts (q + 1) ≤ longest last_tick) × ((get_or s.old.stations p no_station).timeout ≤ longest last_tick) }
    ensures bound { (now ≤ result.1) × (result.1 ≤ until) }
    ensures read { Reading q p (8 * q + p) now s.old s.new result.1 result.0 (get_or s.old.used (8 * q + p) 0) }
{
    let k = 8 * q + p;
    let u = usize::from(s.used[k]);
    let mut until = until;
    let mut to = 0usize;
    for i in 0..u {
        let due = s.messages[PLACES * k + i].due;
        if due != now {
            until = short_of(now, due, until);
            s.messages[PLACES * k + to] = s.messages[PLACES * k + i];
            to += 1;
        } else if s.stations[p].up {
            let m = s.messages[PLACES * k + i];
            let mut x = s.stations[p];
            let me = p as u8 + 1;
            let from = q as u8 + 1;
            if s.clock {
                clock::rules::hear(&mut x, me, from, m.stamp, now);
                s.stations[p] = x;
            } else {
                x.hear(&s.ranks, me, from, &m.counts, now);
                s.stations[p] = x;
            }
        }
    }
    (to, until)
}

// Places of the link at place k from one up to another are unused again.
fn clear(s: &mut Layout, k: usize, from: usize, to: usize)
    requires place { k < 64 }
    requires within { (from ≤ to) × (to ≤ places) }
    requires full { length s.old.messages ≡ 64 * places }
    ensures { Clearing k s.old s.new from to }
{
    let empty = unused();
    for j in from..to {
        s.messages[PLACES * k + j] = empty;
    }
}
