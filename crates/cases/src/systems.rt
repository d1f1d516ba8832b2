// Systems: what shows of one in a line.
use crate::line::{Commas, Line};
use election::System;

// The line and what shows of a system; of clock heads their stamps too.
pub fn system(line: Line, s: &System) -> Line {
    let System {
        n,
        period,
        tick,
        ..
    } = *s;
    let line = line
        .either(s.ready, ", set up", ", not set up")
        .with(format_args!(", n {n}, period {period}, tick {tick}, up "));
    let line = s
        .stations
        .iter()
        .fold(line, |line, station| line.with(u8::from(station.up)));
    let counts = s.stations.map(|station| station.incarnation);
    let under_way = s
        .links
        .iter()
        .fold(0u32, |sum, link| sum.wrapping_add(u32::from(link.used)));
    let counts = Commas(&counts);
    let sent = Commas(&s.sent);
    let ranks = Commas(&s.ranks);
    let line = line.with(format_args!(
        ", counts {counts}, sent {sent}, under way {under_way}, ranks {ranks}"
    ));
    if s.clock { clocks(line, s) } else { line }
}

// The line and the stamps of clock heads.
fn clocks(line: Line, s: &System) -> Line {
    let stamps = s.stations.map(|station| station.stamp);
    let lowest = s.stations.map(|station| station.lowest);
    let timeouts = s.stations.map(|station| station.timeout);
    let stamps = Commas(&stamps);
    let lowest = Commas(&lowest);
    let timeouts = Commas(&timeouts);
    line.with(format_args!(", clock heads, stamps {stamps}, lowest {lowest}, timeouts {timeouts}"))
}
