// Going on with a schedule, in a system that is lent: each command is done in place. The operations of this crate begin with a system
// that is sound, and every command keeps it so.
ghost use Rattle.std.specs.Prelude.{◌≡◌, true};
ghost use Rattle.election.specs.Sound.{sound};
ghost use Rattle.layout.specs.Layout.{system_of};
ghost use Rattle.decision.specs.Decided.{SeesAll};
ghost use Rattle.simulator.specs.Gone.{gone, said};

use crate::obeying::obey;
use decision::widths::width;
use decision::{Command, Seen, decide};
use election::Refusal;
use layout::Layout;
use listing::rules::write_listing;
use listing::shown::Shown;

// Room that is enough for every listing.
const LONGEST_LISTING: usize = 2700;

// Where going on with a schedule stops: before a report that has no room left, at the schedule's end, or before a refused command.
#[derive(Clone, Copy, Debug, PartialEq, Eq)]
pub enum Stop {
    Full,
    End,
    Refused(Refusal),
}

// .. with the offset, and how many bytes of listings were written.
#[derive(Clone, Copy, Debug, PartialEq, Eq)]
pub struct Onward {
    pub stop: Stop,
    pub at: usize,
    pub size: usize,
}

// What is seen of a system that is laid out.
fn seen(s: &Layout) -> Seen<'_>
    ensures { SeesAll (system_of s.now) result }
{
    Seen {
        ready: s.ready,
        clock: s.clock,
        n: s.n,
        tick: s.tick,
        stations: &s.stations,
    }
}

// Goes on with a schedule from a system and an offset, each command in place. Asked to list, it writes the listing of each accepted report
// into the buffer, and stops where there is no room for another.
// (d) Whether to list is a flag: a closure for the report would need its own `pre` and `post` at each turn, and say no more.
pub fn go_on(s: &mut Layout, from: usize, bytes: &[u8], list: bool, buffer: &mut [u8]) -> Onward
    requires { sound (system_of s.old) ≡ true }
    ensures { said result s.new buffer.new ≡ gone list (system_of s.old) from bytes.now buffer.old }
{
    // (d) each command begins behind the last one, whose width its byte tells: no iterator over the bytes is plainer
    let mut at = from;
    let mut size = 0;
    // up to this tick each tick only raises the counter
    let mut quiet = 0;
    while at < bytes.len() {
        let command = match decide(&seen(s), &bytes[at..]) {
            Ok(command) => command,
            Err(why) => {
                return Onward {
                    stop: Stop::Refused(why),
                    at,
                    size,
                };
            }
        };
        match command {
            Command::Report => {
                if list {
                    if buffer.len() - size < LONGEST_LISTING {
                        return Onward {
                            stop: Stop::Full,
                            at,
                            size,
                        };
                    }
                    let shown = Shown {
                        clock: s.clock,
                        n: s.n,
                        tick: s.tick,
                        stations: &s.stations,
                        sent: &s.sent,
                    };
                    size += write_listing(&shown, &mut buffer[size..]);
                }
            }
            _ => quiet = obey(s, quiet, command),
        }
        at += 1 + width(bytes[at]);
    }
    Onward {
        stop: Stop::End,
        at,
        size,
    }
}
