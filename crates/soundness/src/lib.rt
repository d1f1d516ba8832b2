// Whether a system is sound: every clause of the papers' list, tested, but for the longest delay, which no byte passes. No sum in the
// tests wraps.
#![tactic(auto)]

ghost use Rattle.std.specs.Prelude.{◌≡◌, ◌+◌, ◌<◌, ◌≤◌};
ghost use Rattle.lists.specs.Test.{all_to};
ghost use Rattle.election.specs.Heads.{ranked_of};
ghost use Rattle.election.specs.System.{places, is_link};
ghost use Rattle.election.specs.Sound.{empty_station, empty_message, message_in, before_slot, message_place, apart, places_in, ordered, link_in, empty_places, station_in, place_in, sound};

use election::{Link, Message, PLACES, System};
use fit::{LONGEST_DELAY, cleared, counts_in, ranks_in};
use heads::rules::{content_in, fits};
use station::{LAST_TICK, Seat, Station};

// A number of ticks after a tick.
fn later(tick: u32, ticks: u32) -> u64
    ensures { result ≡ tick + ticks }
{
    u64::from(tick) + u64::from(ticks)
}

// Whether a place beyond the stations is zero.
#[tactic(auto, unfolding(election::specs::Sound::empty_station))]
fn empty_station(x: &Station) -> bool
    ensures { result ≡ empty_station x.now }
{
    x.incarnation == 0 && x.stable == 0 && !x.up && cleared(x)
}

// Whether an unused place of a link is zero.
#[tactic(auto, unfolding(election::specs::Sound::empty_message))]
fn empty_message(m: &Message) -> bool
    ensures { result ≡ empty_message m.now }
{
    m.sent == 0 && m.due == 0 && counts_in(0, &m.counts) && m.stamp == 0
}

// Whether a message's ticks and what it carries are in range.
#[tactic(auto, unfolding(election::specs::Sound::message_in))]
fn message_in(s: &System, m: &Message) -> bool
    ensures { result ≡ message_in s.now.clock s.now.n s.now.period s.now.tick m.now }
{
    m.sent <= s.tick
        && s.tick < m.due
        && u64::from(m.due) <= later(m.sent, u32::from(LONGEST_DELAY))
        && content_in(s.clock, s.n, s.period, s.tick, m)
}

// Whether an up sender's next send chance is at least a period after the sending.
#[tactic(auto, unfolding(election::specs::Sound::before_slot))]
fn before_slot(period: u32, sender: &Station, m: &Message) -> bool
    ensures { result ≡ before_slot period sender.now m.now }
{
    !sender.up || later(m.sent, period) <= u64::from(sender.slot)
}

// Whether a place of a link holds a message if it is used, and else is zero.
fn message_place(s: &System, sender: &Station, used: bool, m: &Message) -> bool
    ensures { result ≡ message_place s.now.clock s.now.n s.now.period s.now.tick sender.now used m.now }
{
    if used {
        message_in(s, m) && before_slot(s.period, sender, m)
    } else {
        empty_message(m)
    }
}

// Whether all places of a link hold messages as far as they are used, and are zero beyond.
fn places_in(s: &System, sender: &Station, l: &Link) -> bool
    ensures { result ≡ places_in s.now.clock s.now.n s.now.period s.now.tick sender.now l.now }
{
    l.messages.iter().enumerate().all(|(k, m)| message_place(s, sender, k < usize::from(l.used), m))
}

// Whether two sendings lie at least a period apart.
fn apart(period: u32, older: &Message, younger: &Message) -> bool
    ensures { result ≡ apart period older.now younger.now }
{
    later(older.sent, period) <= u64::from(younger.sent)
}

// Whether the messages of a link stand oldest first, sendings at least a period apart.
fn ordered(period: u32, l: &Link) -> bool
    requires { l.now.used ≤ places }
    ensures { result ≡ ordered period l.now }
{
    l.messages
        .iter()
        .zip(l.messages.iter().skip(1))
        .take(usize::from(l.used).saturating_sub(1))
        .all(|(older, younger)| apart(period, older, younger))
}

// Whether a link between two stations is in range.
#[tactic(auto, unfolding(election::specs::Sound::link_in))]
fn link_in(s: &System, sender: &Station, l: &Link) -> bool
    ensures { result ≡ link_in s.now.clock s.now.n s.now.period s.now.tick sender.now l.now }
{
    usize::from(l.used) <= PLACES && places_in(s, sender, l) && ordered(s.period, l)
}

// Whether all places of a link are zero.
fn empty_places(l: &Link) -> bool
    ensures { result ≡ empty_places l.now }
{
    l.messages.iter().all(|m| empty_message(m))
}

// Whether the link from p to q is one of the system's.
fn is_link(n: u8, p: u8, q: u8) -> bool
    requires { (1 ≤ p) × (1 ≤ q) }
    ensures { result ≡ is_link n p q }
{
    p - 1 < n && q - 1 < n && p != q
}

// Whether place k of the links is in range, with its delay and sender.
#[tactic(auto, using(election::proofs::Places::seat_of), unfolding(election::specs::Sound::place_in, election::specs::Sound::empty_place))]
fn place_in(s: &System, k: u8) -> bool
    requires { k < 64 }
    ensures { result ≡ place_in s.now k }
{
    let (p, q) = (k / 8 + 1, k % 8 + 1);
    let delay = s.delays[usize::from(k)];
    let l = &s.links[usize::from(k)];
    if is_link(s.n, p, q) {
        // every byte is a delay
        link_in(s, &s.stations[usize::from(p - 1)], l)
    } else {
        delay == 0 && l.used == 0 && empty_places(l)
    }
}

// Whether place k of the stations is in range, with its sent count.
#[tactic(auto, unfolding(election::specs::Sound::station_in, election::specs::Sound::empty_seat))]
fn station_in(s: &System, k: u8) -> bool
    requires { k < 8 }
    ensures { result ≡ station_in s.now k }
{
    let x = &s.stations[usize::from(k)];
    let sent = s.sent[usize::from(k)];
    if k < s.n {
        let seat = Seat {
            me: k + 1,
            n: s.n,
            period: s.period,
        };
        fits(s.clock, seat, s.tick, x) && u64::from(sent) <= 7 * u64::from(s.tick)
    } else {
        empty_station(x) && sent == 0
    }
}

// Whether every clause of soundness holds of the stations.
fn stations_in(s: &System) -> bool
    ensures { result ≡ all_to 8 (station_in s.now) }
{
    (0..8).all(|k| station_in(s, k))
}

// Whether every clause of soundness holds of the links.
fn links_in(s: &System) -> bool
    ensures { result ≡ all_to 64 (place_in s.now) }
{
    (0..64).all(|k| place_in(s, k))
}

// How many stations may have a rank: none of clock heads.
fn ranked_of(clock: bool, n: u8) -> u8
    ensures { result ≡ ranked_of clock n }
{
    if clock { 0 } else { n }
}

// Whether a system is sound.
#[tactic(auto, unfolding(election::specs::Sound::sound))]
pub fn sound(s: &System) -> bool
    ensures { result ≡ sound s.now }
{
    !s.ready
        || ((2..=8).contains(&s.n)
            && (16..=255).contains(&s.period)
            && s.tick <= LAST_TICK
            && stations_in(s)
            && links_in(s)
            && ranks_in(ranked_of(s.clock, s.n), &s.ranks))
}
