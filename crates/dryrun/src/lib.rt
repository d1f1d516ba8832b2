// A try-out: what one command would do, shown before it is given.
#![tactic(auto)]

ghost use Rattle.std.specs.Prelude.{◌≡◌};
ghost use Rattle.dryrun.specs.DryRun.{said, tried};

use election::{Refusal, System};
use listing::listing;
use simulator::command;

// What a try-out answers: the refusal of the command, else of the listing after it, if there is one; and how many bytes of a listing were
// written. Both come together where a refused command shows the listing as it was.
#[derive(Clone, Copy, Debug, PartialEq, Eq)]
pub struct Tried {
    pub refusal: Option<Refusal>,
    pub written: usize,
}

// Does the first command of the bytes on a copy of the system, and writes the listing after it into the front of the buffer. Answers the
// first refusal and the length written.
pub fn dry_run(s: &System, bytes: &[u8], buffer: &mut [u8]) -> Tried
    ensures { said result s.now buffer.new ≡ tried s.now bytes.now buffer.old }
{
    let mut copy = *s;
    let done = command(&mut copy, bytes);
    let listed = listing(&copy, buffer);
    Tried {
        refusal: done.err().or(listed.err()),
        written: listed.unwrap_or(0),
    }
}
