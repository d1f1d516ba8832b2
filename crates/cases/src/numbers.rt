// What numbers of a row stand for. A station: at place 0 its starts, 1 the kept leader, 2 whether it is up, 3 its leader, 4 the timer,
// 5 the slot, 6 whether it waits, from 8 on the counts that it knows, from 16 on its timeouts, and of a clock head 24 its stamp, 25 the
// lowest that it knows, 26 its one timeout. A message: at 0 the tick of its sending, 1 the tick at which it is due, 2 its stamp, from 8
// on its counts.
use election::Message;
use station::Station;
use std::array;

// The number in another type, or the largest that is handed over with it: that type's own.
pub fn capped<T: TryFrom<u64> + Drop>(x: u64, most: T) -> T
where
    T::Error: Drop,
{
    T::try_from(x).unwrap_or(most)
}

// The station that has the numbers.
pub fn station_of(xs: &[u64; 64]) -> Station {
    Station {
        incarnation: capped(xs[0], u16::MAX),
        stable: capped(xs[1], u8::MAX),
        up: xs[2] == 1,
        leader: capped(xs[3], u8::MAX),
        timer: capped(xs[4], u32::MAX),
        slot: capped(xs[5], u32::MAX),
        recovering: xs[6] == 1,
        recovered: array::from_fn(|k| capped(xs[8 + k], u16::MAX)),
        timeouts: array::from_fn(|k| capped(xs[16 + k], u32::MAX)),
        stamp: capped(xs[24], u32::MAX),
        lowest: capped(xs[25], u32::MAX),
        timeout: capped(xs[26], u32::MAX),
    }
}

// Gives a station another number at a place.
pub fn set_station(station: &mut Station, place: usize, x: u64) {
    match place {
        0 => station.incarnation = capped(x, u16::MAX),
        1 => station.stable = capped(x, u8::MAX),
        2 => station.up = x == 1,
        3 => station.leader = capped(x, u8::MAX),
        4 => station.timer = capped(x, u32::MAX),
        5 => station.slot = capped(x, u32::MAX),
        6 => station.recovering = x == 1,
        8..=15 => station.recovered[place - 8] = capped(x, u16::MAX),
        16..=23 => station.timeouts[place - 16] = capped(x, u32::MAX),
        24 => station.stamp = capped(x, u32::MAX),
        25 => station.lowest = capped(x, u32::MAX),
        26 => station.timeout = capped(x, u32::MAX),
        _ => {}
    }
}

// Gives a message another number at a place.
pub fn set_message(message: &mut Message, place: usize, x: u64) {
    match place {
        0 => message.sent = capped(x, u32::MAX),
        1 => message.due = capped(x, u32::MAX),
        2 => message.stamp = capped(x, u32::MAX),
        8..=15 => message.counts[place - 8] = capped(x, u16::MAX),
        _ => {}
    }
}
