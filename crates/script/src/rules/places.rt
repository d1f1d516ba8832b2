// Where in a text a byte of its schedule comes from.
ghost use Rattle.std.specs.Prelude.{◌≡◌, ◌≤◌};
ghost use Rattle.election.specs.Schedule.{most_bytes};
ghost use Rattle.script.specs.Places.{line_holding};

use crate::rules::assembling::line_at;
use crate::rules::lines::read_size;

// The number of the line whose bytes hold an offset of the schedule, 0 where none does.
pub fn line_holding(text: &[u8], offset: usize) -> usize
    requires { offset ≤ most_bytes }
    ensures { result ≡ line_holding text.now offset }
{
    // (d) `line_at` reads a line and tells where the next one begins; std's `split` says little of its parts
    let mut at = 0;
    let mut passed = 0;
    let mut size = 0;
    while at < text.len() {
        let turn = line_at(text, at);
        size += read_size(turn.line);
        if offset < size {
            return passed + 1;
        }
        passed += 1;
        at = turn.next;
    }
    0
}
