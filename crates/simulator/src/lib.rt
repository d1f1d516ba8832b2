// The rehearsal desk: a command, and a schedule. Each tests what it is handed. Soundness and the listing are operations of crates
// of their own.
#![tactic(auto)]

ghost use Rattle.std.specs.Prelude.{◌≡◌};
ghost use Rattle.election.specs.Commands.{command, said};
ghost use Rattle.election.specs.Schedule.{schedule};
ghost use Rattle.election.specs.Schedule.{said as saidSchedule};

use crate::rules::{Stop, go_on};
use decision::widths::width;
use decision::{Seen, decide};
use election::{Refusal, Scheduled, Stopped, System};
use layout::rules::{fresh, layout_of, system_of};
use soundness::sound;

mod obeying;
pub mod rules;

// The most bytes of a schedule.
const MOST_BYTES: usize = 65536;

// Does the first command of the bytes, and answers its length. Turned down, it leaves the system as it is.
pub fn command(s: &mut System, bytes: &[u8]) -> Result<usize, Refusal>
    ensures { said result s.new ≡ command s.old bytes.now }
{
    if !sound(s) {
        return Err(Refusal::Unsound);
    }
    decide(&Seen::from(&*s), bytes)?;
    // taken: it is done by going on with its bytes, asked for no listings
    let size = 1 + width(bytes[0]);
    let mut layout = layout_of(s);
    go_on(&mut layout, 0, &bytes[..size], false, &mut []);
    *s = system_of(&layout);
    Ok(size)
}

// Does the commands of a schedule in order, from the fresh system, up to the first refusal.
#[tactic(auto, using(crate::proofs::Operations::too_long))]
pub fn schedule(bytes: &[u8]) -> Scheduled
    ensures { saidSchedule result ≡ schedule bytes.now }
{
    let mut layout = fresh();
    if MOST_BYTES < bytes.len() {
        return Scheduled {
            ended: Err(Stopped {
                at: 0,
                refusal: Refusal::ScheduleLong,
            }),
            system: system_of(&layout),
        };
    }
    let gone = go_on(&mut layout, 0, bytes, false, &mut []);
    let ended = match gone.stop {
        Stop::Refused(refusal) => Err(Stopped {
            at: gone.at,
            refusal,
        }),
        // asked for no listings, it never stops for want of room
        _ => Ok(gone.at),
    };
    Scheduled {
        ended,
        system: system_of(&layout),
    }
}
