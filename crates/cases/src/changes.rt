// Changes of a system in one place, as a row names it.
ghost use Rattle.std.specs.Prelude.{◌<◌};

use crate::numbers::{capped, set_message, set_station};
use crate::row::{Change, Row};
use election::{PLACES, System};

// Where what has a number from 1 to most stands, and for another number where the first stands.
fn spot(number: usize, most: usize) -> usize
    requires { 0 < most }
    ensures { result < most }
{
    if (1..=most).contains(&number) {
        number - 1
    } else {
        0
    }
}

// Where the link from one station to another stands.
// (d) layout's place_of asks for numbers from 1 to 8 in bytes; any two numbers are taken here, so a call of it would be longer.
fn way(p: usize, q: usize) -> usize
    ensures { result < 64 }
{
    8 * spot(p, 8) + spot(q, 8)
}

// Gives a system another number of its own.
fn set_system(s: &mut System, place: usize, x: u64) {
    match place {
        0 => s.ready = x == 1,
        1 => s.n = capped(x, u8::MAX),
        2 => s.period = capped(x, u32::MAX),
        3 => s.tick = capped(x, u32::MAX),
        5 => s.clock = x == 1,
        16..=23 => s.sent[place - 16] = capped(x, u32::MAX),
        24..=31 => s.ranks[place - 24] = capped(x, u8::MAX),
        _ => {}
    }
}

// Changes a link, or has it be that from station 1 to another.
fn reroute(s: &mut System, link: usize, change: Change, xs: &[u64; 64])
    requires { link < 64 }
{
    let x = xs[40];
    match change {
        Change::Used => s.links[link].used = capped(x, u8::MAX),
        Change::Message => {
            if let Some(message) = s.links[link]
                .messages
                .get_mut(spot(capped(xs[34], usize::MAX), 255))
            {
                set_message(message, capped(xs[35], usize::MAX), x);
            }
        }
        Change::Exchange => {
            let k = spot(capped(x, usize::MAX), 255);
            if k < PLACES {
                s.links[link].messages.swap(0, k);
            }
        }
        _ => s.links[link] = s.links[way(1, capped(x, usize::MAX))],
    }
}

// Changes a system as a row says.
pub fn change(s: &mut System, row: &Row) {
    let xs = &row.numbers;
    let p = capped(xs[32], usize::MAX);
    let q = capped(xs[33], usize::MAX);
    let x = xs[40];
    match row.change {
        None => {}
        Some(Change::System) => set_system(s, p, x),
        Some(Change::Station) => set_station(&mut s.stations[spot(p, 8)], q, x),
        Some(Change::Delay) => s.delays[way(p, q)] = capped(x, u8::MAX),
        Some(change) => reroute(s, way(p, q), change, xs),
    }
}
