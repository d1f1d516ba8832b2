// The cases of the search for agreement: what it finds, and where it ended.
use crate::line::Line;
use crate::numbers::{capped, station_of};
use crate::row::Row;
use election::Verdict;
use listing::search::search;
use station::Station;
use std::array;

// Searches stations for agreement: the numbers from place 40 on are their leaders, and those with a 1 from place 48 on are up.
pub fn search_case(name: Line, row: &Row) -> Line {
    let xs = &row.numbers;
    let blank = station_of(&[0; 64]);
    let stations = array::from_fn(|k| Station {
        up: xs[48 + k] == 1,
        leader: capped(xs[40 + k], u8::MAX),
        ..blank
    });
    let found = search(capped(xs[32], u8::MAX), &stations);
    let ended = found.ended;
    match found.finding {
        Verdict::Dark => name.with(": dark"),
        Verdict::Agreed(leader) => name.with(format_args!(": agreed {leader}")),
        Verdict::AgreedDark(leader) => name.with(format_args!(": agreed dark {leader}")),
        Verdict::Split => name.with(": split"),
    }
    .with(format_args!(", ended at {ended}"))
}
