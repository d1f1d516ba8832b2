// The figure after a text's schedule.
ghost use Rattle.std.specs.Prelude.{◌≡◌, length};
ghost use Rattle.election.specs.Schedule.{most_bytes};
ghost use Rattle.desk.specs.Said.{Read, reading};
ghost use Rattle.desk.specs.Spoken.{SpokenTo};
ghost use Rattle.desk.specs.declared.asked.Mode.TheVariants as modes;

use crate::figure::put_figure;
use crate::said::prepare;
use crate::wording::{Held, put_complaint};
use calls::Cut;
use calls::streams::{Stream, write_to};
use election::Stopped;
use figures::rules::{bound_ticks, figures};
use std::io::Write;

// Tells the figure after a schedule, or that it is refused.
fn tell<O: Write, E: Write>(
    out: &mut O,
    err: &mut E,
    d: u16,
    given: &[u8],
    bytes: &[u8],
) -> Result<(), Cut>
    requires { reading given.now ≡ Read bytes.now }
    ensures { SpokenTo (modes.Figure d) given.now result
        (O.contents out.old) (O.contents out.new) (E.contents err.old) (E.contents err.new) }
{
    let mut line = io::buffer();
    let r = simulator::schedule(bytes);
    let ended = r.ended;
    let s = r.system;
    match ended {
        Err(Stopped { at, refusal }) => {
            let n = put_complaint(refusal, &Held { given, at, bytes }, &mut line);
            write_to(out, err, Stream::Error, &line[..n])
        }
        Ok(_) => {
            let f = figures(&s);
            let n = put_figure(d, s.ready, s.clock, f, bound_ticks(d, &s), &mut line);
            write_to(out, err, Stream::Output, &line[..n])
        }
    }
}

// Says the figure after a text's schedule.
pub fn say_figure<O: Write, E: Write>(
    out: &mut O,
    err: &mut E,
    d: u16,
    given: &[u8],
    bytes: &mut [u8],
) -> Result<(), Cut>
    requires { length bytes.old ≡ most_bytes }
    ensures { SpokenTo (modes.Figure d) given.now result
        (O.contents out.old) (O.contents out.new) (E.contents err.old) (E.contents err.new) }
{
    let mut line = io::buffer();
    let r = prepare(given, bytes, &mut line);
    match r {
        Ok(n) => tell(out, err, d, given, &bytes[..n]),
        Err(n) => write_to(out, err, Stream::Error, &line[..n]),
    }
}
