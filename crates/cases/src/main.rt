// Runs the cases of standard input, one to a line, and prints a line for each, and how many there were.
#![tactic(auto)]

use calls::read_whole;

mod changes;
mod commands;
mod desk;
mod frames;
mod line;
mod listings;
mod numbers;
mod row;
mod schedules;
mod searches;
mod stations;
mod systems;
mod table;
mod tryouts;

// Reads the table, as far as it comes and as there is room, and runs it.
fn main(rt: HostRuntime) {
    let mut text = [0; 131_072];
    let mut bytes = [0; 65_537];
    let size = read_whole(&mut rt.stdin(), &mut text).map_or_else(
        |cut| cut.at,
        |filled| filled.size,
    );
    table::run(&text[..size], &mut bytes, &mut rt.stdout());
}
