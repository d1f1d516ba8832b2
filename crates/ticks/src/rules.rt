// Runs of a sound system, in place: messages are heard, kept and sent where they stand. The simulator's operations test soundness, and
// every command keeps it, so what is required here can be met.
ghost use Rattle.std.specs.Prelude.{◌≡◌, true, ◌+◌, ◌≤◌};
ghost use Rattle.station.specs.Limits.{last_tick};
ghost use Rattle.layout.specs.Layout.{system_of};
ghost use Rattle.election.specs.Idle.{Still};
ghost use Rattle.election.specs.Sound.{sound};
ghost use Rattle.election.specs.Tick.{ticks};

use crate::chance::chances;
use crate::deliver::hear;
use crate::steps::full;
use layout::Layout;

// Goes on for t ticks, and answers a tick up to which nothing more is due. In a tick what is due is heard, sender by sender, past those
// that have nothing under way; then each timer and each send chance that is due is done; then the counter goes on to the tick up to which
// nothing is due, or to the end of the run.
pub fn run(t: u32, s: &mut Layout) -> u32
    requires { (sound (system_of s.old) ≡ true) × (s.old.ready ≡ true) × (s.old.tick + t ≤ last_tick) }
    ensures system_value { system_of s.new ≡ ticks t (system_of s.old) }
    ensures still { Still result (system_of s.new) }
{
    full(*s);
    let end = s.tick + t;
    // whether a station may have messages under way
    let mut busy = [true; 8];
    let mut quiet = 0u32;
    while s.tick < end {
        let now = s.tick + 1;
        let until = hear(s, &mut busy, now);
        quiet = chances(s, &mut busy, now, until);
        s.tick = quiet.min(end);
    }
    quiet
}
