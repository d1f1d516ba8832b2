// The cases of station operations: what each answers, and the station that it leaves.
use crate::line::{Commas, Line};
use crate::numbers::{capped, station_of};
use crate::row::{Change, Operation, Row};
use operations::Refusal;
use station::{Seat, Station};
use std::array;

// The line and every field of a station; those that only a clock head has are shown of one.
fn fields(line: Line, station: &Station, clock: bool) -> Line {
    let Station {
        leader,
        incarnation,
        stable,
        timer,
        slot,
        stamp,
        lowest,
        timeout,
        ..
    } = *station;
    let counts = Commas(&station.recovered);
    let timeouts = Commas(&station.timeouts);
    let shown = line
        .either(station.up, ": up", ": down")
        .with(format_args!(
            " leader {leader} inc {incarnation} kept {stable} timer {timer} slot {slot}"
        ))
        .either(station.recovering, " wait on", " wait off")
        .with(format_args!(" rec {counts} timeouts {timeouts}"));
    if clock {
        shown.with(format_args!(" stamp {stamp} lowest {lowest} timeout {timeout}"))
    } else {
        shown
    }
}

// Does a row's operation on a station, and answers whether LEADER is sent. The numbers from place 32 on are me, n, the period, the tick,
// the sender and, of a clock head, the stamp; from 40 on the counts, from 48 on the ranks.
fn operate(
    station: &mut Station,
    row: &Row,
    operation: Operation,
    clock: bool,
) -> Result<bool, Refusal> {
    let xs = &row.numbers;
    let seat = Seat {
        me: capped(xs[32], u8::MAX),
        n: capped(xs[33], u8::MAX),
        period: capped(xs[34], u32::MAX),
    };
    let now = capped(xs[35], u32::MAX);
    let from = capped(xs[36], u8::MAX);
    let ranks = array::from_fn(|k| capped(xs[48 + k], u8::MAX));
    let counts = array::from_fn(|k| capped(xs[40 + k], u16::MAX));
    match operation {
        Operation::Start if clock => clock::start(station, seat, now)?,
        Operation::Start => operations::start(station, seat, now)?,
        Operation::Crash if clock => clock::crash(station, seat, now)?,
        Operation::Crash => operations::crash(station, seat, now)?,
        Operation::Hear if clock => clock::hear(
            station,
            seat,
            now,
            from,
            capped(xs[37], u32::MAX),
        )?,
        Operation::Hear => operations::hear(station, &ranks, seat, now, from, &counts)?,
        Operation::Expire if clock => clock::expire(station, seat, now)?,
        Operation::Expire => operations::expire(station, seat, now)?,
        _ if clock => return clock::slot(station, seat, now),
        _ => return operations::slot(station, &ranks, seat, now),
    }
    Ok(false)
}

// Hands a station to an operation; accepted, its fields are shown.
pub fn station_case(name: Line, row: &Row, operation: Operation) -> Line {
    let clock = row.change == Some(Change::Clock);
    let before = station_of(&row.numbers);
    let mut station = before;
    let done = operate(&mut station, row, operation, clock);
    let refusal = done.err().map(|why| why.number());
    let line = name
        .answer(refusal)
        .either(done.unwrap_or(false), ", sends", ", silent")
        .kept(station == before);
    if refusal.is_none() {
        fields(line, &station, clock)
    } else {
        line
    }
}
