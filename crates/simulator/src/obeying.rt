// What a command that is taken does to a system, in place.
ghost use Rattle.std.specs.Prelude.{◌≡◌, true, ◌*◌, ◌≤◌, length};
ghost use Rattle.lists.specs.First.{first_failed};
ghost use Rattle.election.specs.Commands.{perform, tests};
ghost use Rattle.election.specs.Idle.{Still};
ghost use Rattle.election.specs.Sound.{sound};
ghost use Rattle.election.specs.System.{places, without_messages};
ghost use Rattle.layout.specs.Layout.{system_of};
ghost use Rattle.decision.specs.Decided.{command_of};

use decision::Command;
use election::PLACES;
use heads::rules::start;
use layout::Layout;
use layout::rules::{place_of, set_up, unused};
use station::Seat;
use ticks::rules::run;

// What the types of a layout's arrays say, for a layout that is lent: how many they hold. Nothing is done.
// (d) ticks has one for its own loops: shared, it would be a public function that does nothing.
#[inline(always)]
fn full(_x: Layout)
    ensures { (length _x.used ≡ 64) × (length _x.messages ≡ 64 * places) }
{}

// The messages under way on a link vanish.
// (c) By `fill`, whose clauses go clone by clone, the proof did not close.
fn lose(s: &mut Layout, from: u8, to: u8)
    requires { (1 ≤ from) × (from ≤ 8) × (1 ≤ to) × (to ≤ 8) }
    ensures { system_of s.new ≡ without_messages from to (system_of s.old) }
{
    full(*s);
    let link = place_of(from, to);
    let empty = unused();
    for i in 0..PLACES {
        s.messages[PLACES * link + i] = empty;
    }
    s.used[link] = 0;
}

// Does a command that is taken. Up to a tick, each tick only raises the counter: up to `quiet` before, up to what is answered after.
pub fn obey(s: &mut Layout, quiet: u32, command: Command) -> u32
    requires sound { sound (system_of s.old) ≡ true }
    requires taken { first_failed (tests (system_of s.old) (command_of command)) ≡ 0 }
    requires still { Still quiet (system_of s.old) }
    ensures done { system_of s.new ≡ perform (command_of command) (system_of s.old) }
    ensures still { Still result (system_of s.new) }
{
    match command {
        Command::SetUp { clock, n, period } => {
            *s = set_up(clock, n, u32::from(period));
            0
        }
        Command::Start(p) => {
            let place = usize::from(p - 1);
            let seat = Seat {
                me: p,
                n: s.n,
                period: s.period,
            };
            start(&mut s.stations[place], s.clock, seat, s.tick);
            0 // a send chance is to come
        }
        Command::Crash(p) => {
            let place = usize::from(p - 1);
            s.stations[place].crash();
            0
        }
        Command::Link { from, to, delay } => {
            s.delays[place_of(from, to)] = delay;
            0
        }
        Command::Run(ticks) if s.tick + ticks <= quiet => {
            s.tick += ticks;
            quiet
        }
        Command::Run(ticks) => run(ticks, s),
        Command::Lose { from, to } => {
            lose(s, from, to);
            0
        }
        Command::Rank { station, rank } => {
            s.ranks[usize::from(station - 1)] = rank;
            0
        }
        Command::Report => quiet,
    }
}
